// Failures to send a report: each doubles the interval, up to 32 times.

ghost use Rattle.std.specs.Prelude.{◌≡◌};
ghost use Rattle.refusals.specs.Answers.{told};
ghost use Rattle.sender.specs.Backoff.{backoff, multiplier, failure_of, failed_as, success_of, succeeded_as, multiplier_of};

use crate::SenderState;
use refusals::questions::Questions;
use refusals::ranges::counter_u32_ok;
use refusals::refusal::{Refusal, Refused};

// Failures in a row beyond these lengthen the interval no more.
const MAX_DOUBLINGS: u32 = 5;

// How many times longer the interval is after so many failures in a row: 2^failures, at most 32.
#[tactic(auto, unfolding(crate::specs::Backoff::backoff))]
pub fn backoff_of(failures: u32) -> u64
    ensures { result ≡ backoff failures }
{
    1 << failures.min(MAX_DOUBLINGS)
}

// The same as a float, exactly.
fn multiplier_of(failures: u32) -> f64
    ensures { result ≡ multiplier failures }
{
    std::num::nearest_u64_to_f64(backoff_of(failures))
}

impl SenderState {
    // One failure more: the answer is how many there are in a row.
    #[tactic(auto, unfolding(crate::specs::Backoff::failure_of, crate::specs::Backoff::failure_refusal, refusals::specs::Questions::first_no, refusals::specs::Questions::asked, refusals::specs::Answers::admitted, refusals::specs::Answers::settled_with))]
    pub fn record_send_failure(self) -> Result<(SenderState, u32), Refused<SenderState>>
        ensures { result ≡ failed_as (failure_of self) }
    {
        let mut q = Questions::all_yes();
        q.state = self.keeps_rule();
        q.counters = counter_u32_ok(self.consecutive_send_failures, 1);
        q.admit(self)?;
        let consecutive_send_failures = self.consecutive_send_failures + 1;
        let state = SenderState {
            consecutive_send_failures,
            ..self
        };
        Ok((state, consecutive_send_failures))
    }

    // No failure any more: the answer is how many there were in a row.
    #[tactic(auto, unfolding(crate::specs::Backoff::success_of, refusals::specs::Answers::admitted, refusals::specs::Answers::settled_with))]
    pub fn record_send_success(self) -> Result<(SenderState, u32), Refused<SenderState>>
        ensures { result ≡ succeeded_as (success_of self) }
    {
        self.admit()?;
        let state = SenderState {
            consecutive_send_failures: 0,
            ..self
        };
        Ok((state, self.consecutive_send_failures))
    }

    // By how much send failures multiply the interval.
    #[tactic(auto, unfolding(refusals::specs::Answers::answered, refusals::specs::Answers::answer))]
    pub fn send_failure_backoff_multiplier(self) -> Result<f64, Refusal>
        ensures { result ≡ told (multiplier_of self) }
    {
        self.ask()?;
        Ok(multiplier_of(self.consecutive_send_failures))
    }
}
