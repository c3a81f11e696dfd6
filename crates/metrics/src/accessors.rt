// The figures that a caller may ask for.

ghost use Rattle.std.specs.Prelude.{◌≡◌};
ghost use Rattle.refusals.specs.Answers.{told};
ghost use Rattle.metrics.specs.Accessors.{srtt_ms_of, loss_rate_of, smoothed_loss_of, quality_index_of, smoothed_etx_of, goodput_bps_of, last_ecn_ce_count_of, counters_kept, rr_counters_of, reports_seen_of, rtt_samples_of, rtt_zero_of, rtt_arith_fail_of, stale_reports_of, no_echo_reports_of, last_rtt_ms_of};

use crate::{MmpMetrics, RrCounters};
use algorithms::etx::quality_index_unchecked;
use figures::smoothed_ms_unchecked;
use floats::one_minus;
use refusals::refusal::Refusal;

impl MmpMetrics {
    // Smoothed RTT in milliseconds, once measured.
    #[tactic(auto, unfolding(crate::specs::Accessors::srtt_ms_of, refusals::specs::Answers::answered, refusals::specs::Answers::answer))]
    pub fn srtt_ms(self) -> Result<Option<f64>, Refusal>
        ensures { result ≡ told (srtt_ms_of self) }
    {
        self.ask()?;
        Ok(
            self.srtt
                .initialized
                .then_some(smoothed_ms_unchecked(self.srtt)),
        )
    }

    // Loss rate (0.0 = no loss, 1.0 = total loss).
    #[tactic(auto, unfolding(crate::specs::Accessors::loss_rate_of, refusals::specs::Answers::answered, refusals::specs::Answers::answer))]
    pub fn loss_rate(self) -> Result<f64, Refusal>
        ensures { result ≡ told (loss_rate_of self) }
    {
        self.ask()?;
        Ok(one_minus(self.delivery_ratio_forward))
    }

    // Smoothed loss rate (long-term EWMA), once begun.
    #[tactic(auto, unfolding(crate::specs::Accessors::smoothed_loss_of, refusals::specs::Answers::answered, refusals::specs::Answers::answer))]
    pub fn smoothed_loss(self) -> Result<Option<f64>, Refusal>
        ensures { result ≡ told (smoothed_loss_of self) }
    {
        self.ask()?;
        Ok(self.loss_trend.initialized.then_some(self.loss_trend.long))
    }

    // The quality index of smoothed ETX and smoothed RTT, once both are measured.
    #[tactic(auto, unfolding(crate::specs::Accessors::quality_index_of, refusals::specs::Answers::answered, refusals::specs::Answers::answer))]
    pub fn quality_index(self) -> Result<Option<f64>, Refusal>
        ensures { result ≡ told (quality_index_of self) }
    {
        self.ask()?;
        let measured = self.srtt.initialized & self.etx_trend.initialized;
        let quality = quality_index_unchecked(
            self.etx_trend.long,
            smoothed_ms_unchecked(self.srtt),
        );
        Ok(measured.then_some(quality))
    }

    // Smoothed ETX (long-term EWMA), once begun.
    #[tactic(auto, unfolding(crate::specs::Accessors::smoothed_etx_of, refusals::specs::Answers::answered, refusals::specs::Answers::answer))]
    pub fn smoothed_etx(self) -> Result<Option<f64>, Refusal>
        ensures { result ≡ told (smoothed_etx_of self) }
    {
        self.ask()?;
        Ok(self.etx_trend.initialized.then_some(self.etx_trend.long))
    }

    // Smoothed goodput in bytes/sec, or 0 if not yet measured.
    #[tactic(auto, unfolding(crate::specs::Accessors::goodput_bps_of, refusals::specs::Answers::answered, refusals::specs::Answers::answer))]
    pub fn goodput_bps(self) -> Result<f64, Refusal>
        ensures { result ≡ told (goodput_bps_of self) }
    {
        self.ask()?;
        Ok(self.goodput_bps)
    }

    // Cumulative ECN CE count from the most recent report.
    #[tactic(auto, unfolding(crate::specs::Accessors::last_ecn_ce_count_of, refusals::specs::Answers::answered, refusals::specs::Answers::answer))]
    pub fn last_ecn_ce_count(self) -> Result<u32, Refusal>
        ensures { result ≡ told (last_ecn_ce_count_of self) }
    {
        self.ask()?;
        Ok(self.prev_rr_ecn_ce)
    }

    #[tactic(auto, unfolding(crate::specs::Accessors::counters_kept))]
    fn counters_kept(self) -> Option<RrCounters>
        ensures { result ≡ counters_kept self }
    {
        self.has_prev_rr.then_some(RrCounters {
            highest: self.prev_rr_highest_counter,
            packets: self.prev_rr_cum_packets,
            reorders: self.prev_rr_reorder,
        })
    }

    // Cumulative counters of the last accepted report: none until one is accepted in the current session.
    #[tactic(auto, unfolding(crate::specs::Accessors::rr_counters_of, refusals::specs::Answers::answered, refusals::specs::Answers::answer))]
    pub fn rr_counters(self) -> Result<Option<RrCounters>, Refusal>
        ensures { result ≡ told (rr_counters_of self) }
    {
        self.ask()?;
        Ok(self.counters_kept())
    }

    // Reports processed, including stale and duplicate ones.
    #[tactic(auto, unfolding(crate::specs::Accessors::reports_seen_of, refusals::specs::Answers::answered, refusals::specs::Answers::answer))]
    pub fn reports_seen(self) -> Result<u64, Refusal>
        ensures { result ≡ told (reports_seen_of self) }
    {
        self.ask()?;
        Ok(self.reports_seen)
    }

    // Reports that yielded an accepted RTT sample.
    #[tactic(auto, unfolding(crate::specs::Accessors::rtt_samples_of, refusals::specs::Answers::answered, refusals::specs::Answers::answer))]
    pub fn rtt_samples(self) -> Result<u64, Refusal>
        ensures { result ≡ told (rtt_samples_of self) }
    {
        self.ask()?;
        Ok(self.rtt_samples)
    }

    // Echoes whose derived RTT truncated to 0 ms.
    #[tactic(auto, unfolding(crate::specs::Accessors::rtt_zero_of, refusals::specs::Answers::answered, refusals::specs::Answers::answer))]
    pub fn rtt_zero(self) -> Result<u64, Refusal>
        ensures { result ≡ told (rtt_zero_of self) }
    {
        self.ask()?;
        Ok(self.rtt_zero)
    }

    // Echoes whose RTT arithmetic failed.
    #[tactic(auto, unfolding(crate::specs::Accessors::rtt_arith_fail_of, refusals::specs::Answers::answered, refusals::specs::Answers::answer))]
    pub fn rtt_arith_fail(self) -> Result<u64, Refusal>
        ensures { result ≡ told (rtt_arith_fail_of self) }
    {
        self.ask()?;
        Ok(self.rtt_arith_fail)
    }

    // Reports that were stale.
    #[tactic(auto, unfolding(crate::specs::Accessors::stale_reports_of, refusals::specs::Answers::answered, refusals::specs::Answers::answer))]
    pub fn stale_reports(self) -> Result<u64, Refusal>
        ensures { result ≡ told (stale_reports_of self) }
    {
        self.ask()?;
        Ok(self.stale_reports)
    }

    // Fresh reports whose echo was 0.
    #[tactic(auto, unfolding(crate::specs::Accessors::no_echo_reports_of, refusals::specs::Answers::answered, refusals::specs::Answers::answer))]
    pub fn no_echo_reports(self) -> Result<u64, Refusal>
        ensures { result ≡ told (no_echo_reports_of self) }
    {
        self.ask()?;
        Ok(self.no_echo_reports)
    }

    // The most recent accepted per-exchange RTT in ms.
    #[tactic(auto, unfolding(crate::specs::Accessors::last_rtt_ms_of, refusals::specs::Answers::answered, refusals::specs::Answers::answer))]
    pub fn last_rtt_ms(self) -> Result<Option<u32>, Refusal>
        ensures { result ≡ told (last_rtt_ms_of self) }
    {
        self.ask()?;
        Ok(self.last_rtt_ms)
    }
}
