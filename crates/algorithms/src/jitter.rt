// Jitter estimator (RFC 3550, 6.4.1).

ghost use Rattle.std.specs.Prelude.{◌≡◌};
ghost use Rattle.refusals.specs.Answers.{passed, settled, told};
ghost use Rattle.numbers.specs.Jitter.{reported};
ghost use Rattle.algorithms.specs.Jitter.{keeps_the_rule, refusal_of, fresh, stepped, update_of, jitter_us_of};

use numbers::jitter_step;
use numbers::signs::unsigned;
use refusals::questions::Questions;
use refusals::refusal::{Refusal, Refused};

// The greatest scaled jitter, where steps of |D| = 2^31 come to rest.
pub const MAX_JITTER_Q4: i64 = 1 << 35;

// Smoothed jitter from the differences of transit times between consecutive frames.
#[derive(Clone, Copy)]
pub struct JitterEstimator {
    // Sixteen times the jitter, in µs.
    pub jitter_q4: i64,
}

// A sixteenth, rounded down.
fn sixteenth(scaled: u64) -> u64
    ensures { result ≡ reported scaled }
{
    scaled / 16
}

impl JitterEstimator {
    pub fn new() -> JitterEstimator
        ensures { result ≡ fresh }
    {
        JitterEstimator { jitter_q4: 0 }
    }

    pub fn keeps_rule(self) -> bool
        ensures { result ≡ keeps_the_rule self }
    {
        (0 <= self.jitter_q4) & (self.jitter_q4 <= MAX_JITTER_Q4)
    }

    // Question 1 alone: ewma.rt says why each record has these lines.
    #[tactic(auto, unfolding(crate::specs::Jitter::refusal_of, refusals::specs::Questions::first_no, refusals::specs::Questions::asked))]
    fn ask(self) -> Result<(), Refusal>
        ensures { result ≡ passed (refusal_of self) }
    {
        let mut q = Questions::all_yes();
        q.state = self.keeps_rule();
        q.first_no()
    }

    // The step alone, for a caller that has asked its questions.
    #[tactic(auto, unfolding(crate::specs::Jitter::stepped))]
    pub fn update_unchecked(self, transit_delta: i32) -> JitterEstimator
        ensures { result ≡ stepped self transit_delta }
    {
        let next = jitter_step(unsigned(self.jitter_q4), transit_delta.unsigned_abs());
        JitterEstimator {
            jitter_q4: next.cast_signed(),
        }
    }

    // `transit_delta` = (R_i − R_{i−1}) − (S_i − S_{i−1}) in µs.
    #[tactic(auto, unfolding(crate::specs::Jitter::update_of, crate::specs::Jitter::refusal_of, refusals::specs::Questions::first_no, refusals::specs::Questions::asked, refusals::specs::Answers::admitted, refusals::specs::Answers::settled))]
    pub fn update(self, transit_delta: i32) -> Result<JitterEstimator, Refused<JitterEstimator>>
        ensures { result ≡ settled (update_of self transit_delta) }
    {
        let mut q = Questions::all_yes();
        q.state = self.keeps_rule();
        q.admit(self)?;
        Ok(self.update_unchecked(transit_delta))
    }

    // The jitter in µs.
    #[tactic(auto, unfolding(crate::specs::Jitter::jitter_us_of, refusals::specs::Answers::answered))]
    pub fn jitter_us(self) -> Result<u32, Refusal>
        ensures { result ≡ told (jitter_us_of self) }
    {
        self.ask()?;
        Ok(sixteenth(unsigned(self.jitter_q4)) as u32)
    }
}

// No derive: `default` is `new`, whose definition is its law.
impl Default for JitterEstimator {
    ghost is_default = { λ x. x ≡ fresh };

    fn default() -> JitterEstimator {
        JitterEstimator::new()
    }
}
