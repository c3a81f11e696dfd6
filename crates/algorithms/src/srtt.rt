// SRTT estimator (Jacobson, RFC 6298, section 2).

ghost use Rattle.std.specs.Prelude.{◌≡◌};
ghost use Rattle.refusals.specs.Answers.{passed, settled, told};
ghost use Rattle.algorithms.specs.Srtt.{keeps_the_rule, refusal_of, fresh, stepped, update_of, srtt_us_of, rttvar_us_of, initialized_of};

use numbers::signs::unsigned;
use numbers::{rttvar_step, srtt_step};
use refusals::questions::Questions;
use refusals::ranges::round_trip_ok;
use refusals::refusal::{Refusal, Refused};

// Smoothed round trip and its variation, in whole µs.
#[derive(Clone, Copy)]
pub struct SrttEstimator {
    pub srtt_us: i64,
    pub rttvar_us: i64,
    // The first sample has come. A flag beside the numbers and no Option: a call hands back, and replay prints, what they hold where it is off too.
    pub initialized: bool,
}

impl SrttEstimator {
    pub fn new() -> SrttEstimator
        ensures { result ≡ fresh }
    {
        SrttEstimator {
            srtt_us: 0,
            rttvar_us: 0,
            initialized: false,
        }
    }

    #[tactic(auto, unfolding(crate::specs::Srtt::keeps_the_rule))]
    pub fn keeps_rule(self) -> bool
        ensures { result ≡ keeps_the_rule self }
    {
        round_trip_ok(self.srtt_us) & round_trip_ok(self.rttvar_us)
    }

    // Question 1 alone: ewma.rt says why each record has these lines.
    #[tactic(auto, unfolding(crate::specs::Srtt::refusal_of, refusals::specs::Questions::first_no, refusals::specs::Questions::asked))]
    fn ask(self) -> Result<(), Refusal>
        ensures { result ≡ passed (refusal_of self) }
    {
        let mut q = Questions::all_yes();
        q.state = self.keeps_rule();
        q.first_no()
    }

    // The step alone, for a caller that has asked its questions.
    #[tactic(auto, unfolding(crate::specs::Srtt::stepped, crate::specs::Srtt::estimate_in, numbers::specs::RoundTrip::estimate_step))]
    pub fn update_unchecked(self, rtt_us: i64) -> SrttEstimator
        ensures { result ≡ stepped self rtt_us }
    {
        let rtt = unsigned(rtt_us);
        if self.initialized {
            let srtt = unsigned(self.srtt_us);
            let rttvar = unsigned(self.rttvar_us);
            let next_srtt = srtt_step(srtt, rtt);
            let next_rttvar = rttvar_step(rttvar, srtt, rtt);
            SrttEstimator {
                srtt_us: next_srtt.cast_signed(),
                rttvar_us: next_rttvar.cast_signed(),
                initialized: true,
            }
        } else {
            SrttEstimator {
                srtt_us: rtt.cast_signed(),
                rttvar_us: (rtt / 2).cast_signed(),
                initialized: true,
            }
        }
    }

    // Feeds a round trip in µs.
    #[tactic(auto, unfolding(crate::specs::Srtt::update_of, crate::specs::Srtt::update_refusal, refusals::specs::Questions::first_no, refusals::specs::Questions::asked, refusals::specs::Answers::admitted, refusals::specs::Answers::settled))]
    pub fn update(self, rtt_us: i64) -> Result<SrttEstimator, Refused<SrttEstimator>>
        ensures { result ≡ settled (update_of self rtt_us) }
    {
        let mut q = Questions::all_yes();
        q.state = self.keeps_rule();
        q.round_trip = round_trip_ok(rtt_us);
        q.admit(self)?;
        Ok(self.update_unchecked(rtt_us))
    }

    #[tactic(auto, unfolding(refusals::specs::Answers::answered, refusals::specs::Answers::answer))]
    pub fn srtt_us(self) -> Result<i64, Refusal>
        ensures { result ≡ told (srtt_us_of self) }
    {
        self.ask()?;
        Ok(self.srtt_us)
    }

    #[tactic(auto, unfolding(refusals::specs::Answers::answered, refusals::specs::Answers::answer))]
    pub fn rttvar_us(self) -> Result<i64, Refusal>
        ensures { result ≡ told (rttvar_us_of self) }
    {
        self.ask()?;
        Ok(self.rttvar_us)
    }

    #[tactic(auto, unfolding(refusals::specs::Answers::answered, refusals::specs::Answers::answer))]
    pub fn initialized(self) -> Result<bool, Refusal>
        ensures { result ≡ told (initialized_of self) }
    {
        self.ask()?;
        Ok(self.initialized)
    }
}

// No derive: `default` is `new`, whose definition is its law.
impl Default for SrttEstimator {
    ghost is_default = { λ x. x ≡ fresh };

    fn default() -> SrttEstimator {
        SrttEstimator::new()
    }
}
