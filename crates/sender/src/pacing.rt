// The report interval from the smoothed round trip, and when a report is due. A receiver's pacing is its twin but for the multiple and the last report's form. One trait
// for both would be no plainer: it would have to be told the rule, the fields and the record with new ones, by a law each.

ghost use Rattle.std.specs.Prelude.{◌≡◌, ◌≤◌};
ghost use Rattle.refusals.specs.Answers.{settled, told};
ghost use Rattle.refusals.specs.Ranges.{max_clock};
ghost use Rattle.sender.specs.Pacing.{paced_at, from_srtt_of, with_bounds_of, is_due, should_send_of};

use crate::SenderState;
use crate::backoff::backoff_of;
use pace::Pace;
use refusals::questions::Questions;
use refusals::ranges::clock_ok;
use refusals::refusal::{Refusal, Refused};

// The interval in round trips.
const SRTT_MULTIPLE: u8 = 2;

impl SenderState {
    // In the record the two are fields of its own: it is lent to C.
    fn pace(self) -> Pace
        ensures { result ≡ record { report_interval_ms = self.report_interval_ms; srtt_sample_count = self.srtt_sample_count } }
    {
        Pace {
            report_interval_ms: self.report_interval_ms,
            srtt_sample_count: self.srtt_sample_count,
        }
    }

    fn paced_at(self, pace: Pace) -> SenderState
        ensures { result ≡ paced_at self pace.report_interval_ms pace.srtt_sample_count }
    {
        SenderState {
            report_interval_ms: pace.report_interval_ms,
            srtt_sample_count: pace.srtt_sample_count,
            ..self
        }
    }

    // The interval from SRTT, between the link layer's bounds. The update is counted, and the first few have a lower floor.
    #[tactic(auto, unfolding(crate::specs::Pacing::from_srtt_of, pace::specs::Updates::paced, pace::specs::Updates::from_srtt, pace::specs::Updates::updated, refusals::specs::Answers::answered, refusals::specs::Answers::settled))]
    pub fn update_report_interval_from_srtt(
        self,
        srtt_us: i64,
    ) -> Result<SenderState, Refused<SenderState>>
        ensures { result ≡ settled (from_srtt_of self srtt_us) }
    {
        self.pace()
            .from_srtt(self.keeps_rule(), SRTT_MULTIPLE, srtt_us)
            .map(|pace| self.paced_at(pace))
            .map_err(|refusal| Refused {
                refusal,
                state: self,
            })
    }

    // The interval from SRTT, between bounds of the caller's.
    #[tactic(auto, unfolding(crate::specs::Pacing::with_bounds_of, pace::specs::Updates::paced, pace::specs::Updates::with_bounds, pace::specs::Updates::updated, refusals::specs::Answers::answered, refusals::specs::Answers::settled))]
    pub fn update_report_interval_with_bounds(
        self,
        srtt_us: i64,
        min_ms: u64,
        max_ms: u64,
    ) -> Result<SenderState, Refused<SenderState>>
        ensures { result ≡ settled (with_bounds_of self srtt_us min_ms max_ms) }
    {
        self.pace()
            .with_bounds(self.keeps_rule(), SRTT_MULTIPLE, srtt_us, min_ms, max_ms)
            .map(|pace| self.paced_at(pace))
            .map_err(|refusal| Refused {
                refusal,
                state: self,
            })
    }

    // Frames have been sent, and the effective interval has passed since the last report, if there was one.
    #[tactic(auto, unfolding(crate::specs::Pacing::is_due, crate::specs::Backoff::backoff))]
    fn due(self, now_ms: u64) -> bool
        requires { self.report_interval_ms ≤ max_clock }
        ensures { result ≡ is_due self now_ms }
    {
        let effective_ms = self.report_interval_ms * backoff_of(self.consecutive_send_failures);
        let since_ms = now_ms.saturating_sub(self.last_report_ms);
        self.interval_has_data & (!self.has_last_report | (effective_ms <= since_ms))
    }

    // Whether it is time to send a report.
    #[tactic(auto, unfolding(crate::specs::Pacing::should_send_of, crate::specs::Reports::report_refusal, refusals::specs::Questions::first_no, refusals::specs::Questions::asked, refusals::specs::Answers::answered, refusals::specs::Answers::answer, crate::specs::State::keeps_the_rule))]
    pub fn should_send_report(self, now_ms: u64) -> Result<bool, Refusal>
        ensures { result ≡ told (should_send_of self now_ms) }
    {
        let mut q = Questions::all_yes();
        q.state = self.keeps_rule();
        q.clocks = clock_ok(now_ms);
        q.first_no()?;
        Ok(self.due(now_ms))
    }
}
