// A report is built.

ghost use Rattle.std.specs.Prelude.{◌≡◌};
ghost use Rattle.sender.specs.Reports.{report_of, reported, built_of, built_as};

use crate::SenderState;
use refusals::questions::Questions;
use refusals::ranges::clock_ok;
use refusals::refusal::Refused;
use wire::sender_report::SenderReport;

impl SenderState {
    // The interval as a report says it.
    fn report(self) -> SenderReport
        ensures { result ≡ report_of self }
    {
        SenderReport {
            interval_start_counter: self.interval_start_counter,
            interval_end_counter: self.last_counter,
            interval_start_timestamp: self.interval_start_timestamp,
            interval_end_timestamp: self.last_timestamp,
            interval_bytes_sent: self.interval_bytes_sent,
            cumulative_packets_sent: self.cumulative_packets_sent,
            cumulative_bytes_sent: self.cumulative_bytes_sent,
        }
    }

    // The interval has ended: nothing sent yet in the next.
    fn reported(self, now_ms: u64) -> SenderState
        ensures { result ≡ reported self now_ms }
    {
        SenderState {
            interval_has_data: false,
            interval_bytes_sent: 0,
            has_last_report: true,
            last_report_ms: now_ms,
            ..self
        }
    }

    // A report ends the interval. No report where no frame has been sent since the last one.
    #[tactic(auto, unfolding(crate::specs::Reports::report_built, crate::specs::Reports::built_of, crate::specs::Reports::built, crate::specs::Reports::report_refusal, refusals::specs::Questions::first_no, refusals::specs::Questions::asked, refusals::specs::Answers::admitted, refusals::specs::Answers::settled_with))]
    pub fn build_report(
        self,
        now_ms: u64,
    ) -> Result<(SenderState, Option<SenderReport>), Refused<SenderState>>
        ensures { result ≡ built_as (built_of self now_ms) }
    {
        let mut q = Questions::all_yes();
        q.state = self.keeps_rule();
        q.clocks = clock_ok(now_ms);
        q.admit(self)?;
        if self.interval_has_data {
            Ok((self.reported(now_ms), Some(self.report())))
        } else {
            Ok((self, None))
        }
    }
}
