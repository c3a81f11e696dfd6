// A stale report: one of its counters fell below the report kept, or it is the same again.

ghost use Rattle.std.specs.Prelude.{◌≡◌};
ghost use Rattle.figures.specs.Stale.{stale};
ghost use Rattle.metrics.specs.Fields.{counters_in};
ghost use Rattle.metrics.specs.State.{saved_in};
ghost use Rattle.metrics.specs.Reports.{Room, stale_report};

use crate::{MmpMetrics, Outcome, RrLog};
use figures::{Counters, is_stale};
use wire::receiver_report::ReceiverReport;

impl MmpMetrics {
    // Whether a report is stale beside the one kept.
    #[tactic(auto, unfolding(figures::specs::Stale::stale, crate::specs::State::saved_in))]
    pub(crate) fn finds_stale(self, rr: ReceiverReport) -> bool
        ensures { result ≡ stale (saved_in self) rr }
    {
        self.has_prev_rr && is_stale(self.kept_counters(), rr)
    }

    // In the record they are fields of its own: the rules list them so, and laws of `history` name them.
    fn kept_counters(self) -> Counters
        ensures { result ≡ counters_in self }
    {
        Counters {
            highest: self.prev_rr_highest_counter,
            packets: self.prev_rr_cum_packets,
            bytes: self.prev_rr_cum_bytes,
            ecn: self.prev_rr_ecn_ce,
            reorders: self.prev_rr_reorder,
        }
    }

    // A stale report raises its count, and moves nothing.
    #[tactic(auto, unfolding(crate::specs::Reports::stale_counted))]
    pub(crate) fn stale_report(&mut self) -> Outcome
        requires { Room self.old }
        ensures answer { result ≡ (stale_report self.old).outcome }
        ensures state { self.new ≡ (stale_report self.old).state }
    {
        self.stale_reports += 1;
        Outcome {
            first_srtt: false,
            log: RrLog::Stale {
                prev_highest: self.prev_rr_highest_counter,
                prev_packets: self.prev_rr_cum_packets,
                prev_bytes: self.prev_rr_cum_bytes,
            },
        }
    }
}
