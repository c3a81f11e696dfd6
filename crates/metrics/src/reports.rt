// A receiver report processed, in the Rust's order: reports seen, stale test, RTT, delivery, goodput, jitter trend, saved counters.

mod rtt; // reports/rtt.rt: RTT from timestamp echo
mod traffic; // reports/traffic.rt: delivery, goodput, jitter trend, saved counters
mod stale; // reports/stale.rt: the stale test
mod joined; // reports/joined.rt: joined tests, for speed alone

ghost use Rattle.std.specs.Prelude.{◌≡◌};
ghost use Rattle.refusals.specs.Answers.{admitted, passed};
ghost use Rattle.metrics.specs.Reports.{Room, newer_state, newer_outcome, process_refusal, process_of, reported};

use crate::{MmpMetrics, Outcome};
use figures::round_trip;
use refusals::questions::Questions;
use refusals::ranges::{clock_ok, counter_u64_ok};
use refusals::refusal::{Refusal, Refused};
use wire::receiver_report::ReceiverReport;

impl MmpMetrics {
    // A report that is not stale. `Room` is no invariant of a type: the record is public, and a caller may hand in one without.
    #[tactic(auto, unfolding(crate::specs::Reports::rtt_log, figures::specs::RoundTrips::round_trip, crate::specs::Reports::newer_state))]
    fn newer_report(&mut self, rr: ReceiverReport, our_timestamp_ms: u32, now_ms: u64) -> Outcome
        requires { Room self.old }
        ensures answer { result ≡ newer_outcome self.old rr our_timestamp_ms now_ms }
        ensures state { self.new ≡ newer_state self.old rr our_timestamp_ms now_ms }
    {
        let had_srtt = self.srtt.initialized;
        let trip = round_trip(rr, our_timestamp_ms);
        let log = self.rtt_log(trip);
        self.update_rtt(trip);
        self.update_traffic(rr, now_ms);
        Outcome {
            first_srtt: !had_srtt & self.srtt.initialized,
            log,
        }
    }

    // The questions of a report.
    #[tactic(auto, unfolding(crate::specs::Reports::process_refusal, refusals::specs::Questions::first_no, refusals::specs::Questions::asked, refusals::specs::Answers::answered))]
    fn ask_report(self, now_ms: u64) -> Result<(), Refusal>
        ensures { result ≡ passed (process_refusal self now_ms) }
    {
        if self.floats_near() && self.numbers_near(now_ms) {
            return Ok(());
        }
        let mut q = Questions::all_yes();
        q.state = self.keeps_rule();
        q.clocks = clock_ok(now_ms);
        q.counters = counter_u64_ok(self.reports_seen, 1);
        q.first_no()
    }

    // The same, with the record beside a refusal: put there last, so that an accepted report copies none.
    #[inline(always)]
    #[tactic(auto, unfolding(refusals::specs::Answers::answered, refusals::specs::Answers::admitted))]
    fn admit_report(self, now_ms: u64) -> Result<(), Refused<MmpMetrics>>
        ensures { result ≡ admitted (process_refusal self now_ms) self }
    {
        self.ask_report(now_ms).map_err(|refusal| Refused {
            refusal,
            state: self,
        })
    }

    // Processes a report from the peer about our traffic. `our_timestamp_ms` is session-relative (for RTT), `now_ms` monotonic (for the goodput rate).
    #[tactic(auto, unfolding(crate::specs::Reports::process_of, refusals::specs::Answers::admitted, refusals::specs::Answers::settled_with))]
    pub fn process_receiver_report(
        self,
        rr: ReceiverReport,
        our_timestamp_ms: u32,
        now_ms: u64,
    ) -> Result<(MmpMetrics, Outcome), Refused<MmpMetrics>>
        ensures { result ≡ reported (process_of self rr our_timestamp_ms now_ms) }
    {
        self.admit_report(now_ms)?;
        let mut state = self;
        // Counted before the stale test: "a report arrived at all", not "a report was useful".
        state.reports_seen += 1;
        if state.finds_stale(rr) {
            let outcome = state.stale_report();
            return Ok((state, outcome));
        }
        let outcome = state.newer_report(rr, our_timestamp_ms, now_ms);
        Ok((state, outcome))
    }
}
