// What a report says of our traffic: delivery, goodput and jitter, and the counters that the next one is measured from.

ghost use Rattle.std.specs.Prelude.{◌≡◌};
ghost use Rattle.metrics.specs.Reports.{delivery_updated, goodput_updated, jitter_trend_updated, counters_saved, traffic_updated};

use crate::MmpMetrics;
use algorithms::etx::compute_etx_unchecked;
use figures::{delivery_ratio_unchecked, goodput_after_unchecked};
use floats::one_minus;
use wire::receiver_report::ReceiverReport;

impl MmpMetrics {
    // --- Loss rate from cumulative counters ---

    #[tactic(auto, unfolding(crate::specs::Reports::delivery_updated))]
    fn update_delivery(&mut self, rr: ReceiverReport)
        ensures { self.new ≡ delivery_updated self.old rr }
    {
        let counter_span = rr
            .highest_counter
            .saturating_sub(self.prev_rr_highest_counter);
        let packets_delta = rr
            .cumulative_packets_recv
            .saturating_sub(self.prev_rr_cum_packets);
        if self.has_prev_rr && 0 < counter_span {
            let ratio = delivery_ratio_unchecked(packets_delta, counter_span);
            self.delivery_ratio_forward = ratio;
            self.loss_trend = self.loss_trend.update_unchecked(one_minus(ratio));
            self.etx = compute_etx_unchecked(ratio, self.delivery_ratio_reverse);
            self.etx_trend = self.etx_trend.update_unchecked(self.etx);
        }
    }

    // --- Goodput from cumulative bytes and time ---

    #[tactic(auto, unfolding(crate::specs::Reports::goodput_updated))]
    fn update_goodput(&mut self, rr: ReceiverReport, now_ms: u64)
        ensures { self.new ≡ goodput_updated self.old rr now_ms }
    {
        if self.has_prev_rr {
            let bytes_delta = rr
                .cumulative_bytes_recv
                .saturating_sub(self.prev_rr_cum_bytes);
            self.goodput_trend = self
                .goodput_trend
                .update_unchecked(floats::nearest_u64_to_f64(bytes_delta));
            self.goodput_bps = goodput_after_unchecked(
                self.goodput_bps,
                bytes_delta,
                self.prev_rr_ms,
                now_ms,
            );
        }
    }

    // --- Jitter trend ---

    #[tactic(auto, unfolding(crate::specs::Reports::jitter_trend_updated))]
    fn update_jitter_trend(&mut self, rr: ReceiverReport)
        ensures { self.new ≡ jitter_trend_updated self.old rr }
    {
        self.jitter_trend = self
            .jitter_trend
            .update_unchecked(floats::nearest_u64_to_f64(u64::from(rr.jitter)));
    }

    // --- Save for next delta ---

    #[tactic(auto, unfolding(crate::specs::Reports::counters_saved))]
    fn save_counters(&mut self, rr: ReceiverReport, now_ms: u64)
        ensures { self.new ≡ counters_saved self.old rr now_ms }
    {
        self.prev_rr_cum_packets = rr.cumulative_packets_recv;
        self.prev_rr_cum_bytes = rr.cumulative_bytes_recv;
        self.prev_rr_highest_counter = rr.highest_counter;
        self.prev_rr_ecn_ce = rr.ecn_ce_count;
        self.prev_rr_reorder = rr.cumulative_reorder_count;
        self.prev_rr_ms = Some(now_ms);
        self.has_prev_rr = true;
    }

    // What follows the round trip.
    #[tactic(auto, unfolding(crate::specs::Reports::traffic_updated))]
    pub(crate) fn update_traffic(&mut self, rr: ReceiverReport, now_ms: u64)
        ensures { self.new ≡ traffic_updated self.old rr now_ms }
    {
        self.update_delivery(rr);
        self.update_goodput(rr, now_ms);
        self.update_jitter_trend(rr);
        self.save_counters(rr, now_ms);
    }
}
