// Dual EWMA trend detector: a short trend of recent conditions beside a long one.

ghost use Rattle.std.specs.Prelude.{◌≡◌};
ghost use Rattle.refusals.specs.Answers.{passed, settled, told};
ghost use Rattle.algorithms.specs.Ewma.{keeps_the_rule, refusal_of, fresh, stepped, update_of, short_of, long_of, initialized_of};

use floats::step;
use limits::{EWMA_LONG_ALPHA, EWMA_SHORT_ALPHA};
use refusals::questions::Questions;
use refusals::ranges::trend_ok;
use refusals::refusal::{Refusal, Refused};

#[derive(Clone, Copy)]
pub struct DualEwma {
    pub short: f64,
    pub long: f64,
    // The first sample has come. A flag beside the numbers and no Option: a call hands back, and replay prints, what they hold where it is off too.
    pub initialized: bool,
}

impl DualEwma {
    pub fn new() -> DualEwma
        ensures { result ≡ fresh }
    {
        DualEwma {
            short: 0.0,
            long: 0.0,
            initialized: false,
        }
    }

    #[tactic(auto, unfolding(crate::specs::Ewma::keeps_the_rule))]
    pub fn keeps_rule(self) -> bool
        ensures { result ≡ keeps_the_rule self }
    {
        let short = trend_ok(self.short);
        let long = trend_ok(self.long);
        short & long
    }

    // Question 1 alone. Each record has these lines and its `keeps_rule`: a trait for them would have to be told each rule again, by a law.
    #[tactic(auto, unfolding(crate::specs::Ewma::refusal_of, refusals::specs::Questions::first_no, refusals::specs::Questions::asked))]
    fn ask(self) -> Result<(), Refusal>
        ensures { result ≡ passed (refusal_of self) }
    {
        let mut q = Questions::all_yes();
        q.state = self.keeps_rule();
        q.first_no()
    }

    // The step alone, for a caller that has asked its questions.
    #[tactic(auto, unfolding(crate::specs::Ewma::stepped))]
    pub fn update_unchecked(self, sample: f64) -> DualEwma
        ensures { result ≡ stepped self sample }
    {
        if self.initialized {
            DualEwma {
                short: step(EWMA_SHORT_ALPHA, self.short, sample),
                long: step(EWMA_LONG_ALPHA, self.long, sample),
                initialized: true,
            }
        } else {
            DualEwma {
                short: sample,
                long: sample,
                initialized: true,
            }
        }
    }

    #[tactic(auto, unfolding(crate::specs::Ewma::update_of, crate::specs::Ewma::update_refusal, refusals::specs::Questions::first_no, refusals::specs::Questions::asked, refusals::specs::Answers::admitted, refusals::specs::Answers::settled))]
    pub fn update(self, sample: f64) -> Result<DualEwma, Refused<DualEwma>>
        ensures { result ≡ settled (update_of self sample) }
    {
        let mut q = Questions::all_yes();
        q.state = self.keeps_rule();
        q.values = trend_ok(sample);
        q.admit(self)?;
        Ok(self.update_unchecked(sample))
    }

    #[tactic(auto, unfolding(refusals::specs::Answers::answered, refusals::specs::Answers::answer))]
    pub fn short(self) -> Result<f64, Refusal>
        ensures { result ≡ told (short_of self) }
    {
        self.ask()?;
        Ok(self.short)
    }

    #[tactic(auto, unfolding(refusals::specs::Answers::answered, refusals::specs::Answers::answer))]
    pub fn long(self) -> Result<f64, Refusal>
        ensures { result ≡ told (long_of self) }
    {
        self.ask()?;
        Ok(self.long)
    }

    #[tactic(auto, unfolding(refusals::specs::Answers::answered, refusals::specs::Answers::answer))]
    pub fn initialized(self) -> Result<bool, Refusal>
        ensures { result ≡ told (initialized_of self) }
    {
        self.ask()?;
        Ok(self.initialized)
    }
}

// No derive: `default` is `new`, whose definition is its law.
impl Default for DualEwma {
    ghost is_default = { λ s. s ≡ fresh };

    fn default() -> DualEwma {
        DualEwma::new()
    }
}
