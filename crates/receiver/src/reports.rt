// A report is built.

ghost use Rattle.std.specs.Prelude.{◌≡◌};
ghost use Rattle.refusals.specs.Answers.{answered};
ghost use Rattle.algorithms.specs.Owd.{window};
ghost use Rattle.algorithms.specs.OwdTrend.{trend_of};
ghost use Rattle.receiver.specs.Reports.{report_of, reported, report_refusal, built_of, built_as};

use crate::ReceiverState;
use gaps::{GapTracker, IntervalStats};
use refusals::questions::Questions;
use refusals::ranges::clock_ok;
use refusals::refusal::{Refusal, Refused};
use samples::echo::echo_of_unchecked;
use wire::receiver_report::ReceiverReport;

impl ReceiverState {
    // The interval as a report says it, with its bursts and the delay trend.
    #[tactic(auto, unfolding(crate::specs::Reports::report_of, algorithms::specs::Jitter::jitter_us_of, refusals::specs::Answers::answered))]
    fn report(self, stats: IntervalStats, owd_trend: i32, now_ms: u64) -> ReceiverReport
        ensures { result ≡ report_of self stats owd_trend now_ms }
    {
        let echo = echo_of_unchecked(self.last_recv_ms, self.last_sender_timestamp, now_ms);
        ReceiverReport {
            highest_counter: self.highest_counter,
            cumulative_packets_recv: self.cumulative_packets_recv,
            cumulative_bytes_recv: self.cumulative_bytes_recv,
            timestamp_echo: echo.timestamp_echo,
            dwell_time: echo.dwell_time,
            max_burst_loss: stats.max,
            mean_burst_loss: stats.mean,
            jitter: self.jitter.jitter_us().unwrap_or(0),
            ecn_ce_count: self.ecn_ce_count,
            owd_trend,
            burst_loss_count: stats.count,
            // Saturates rather than wraps, so the peer never sees a count fall.
            cumulative_reorder_count: u32::try_from(self.cumulative_reorder_count).unwrap_or(
                u32::MAX,
            ),
            interval_packets_recv: self.interval_packets_recv,
            interval_bytes_recv: self.interval_bytes_recv,
        }
    }

    // The interval has ended: nothing counted yet in the next.
    fn reported(self, gap_tracker: GapTracker, now_ms: u64) -> ReceiverState
        ensures { result ≡ reported self gap_tracker now_ms }
    {
        ReceiverState {
            interval_packets_recv: 0,
            interval_bytes_recv: 0,
            gap_tracker,
            last_report_ms: Some(now_ms),
            interval_has_data: false,
            interval_max_lateness: 0,
            ..self
        }
    }

    // The questions of a report, and the trend, which asks the last one, of every live sample.
    #[tactic(auto, unfolding(refusals::specs::Questions::first_no, refusals::specs::Questions::asked, refusals::specs::Answers::answered), using(crate::proofs::TrendAsked::first_refuses, crate::proofs::TrendAsked::trend_asked))]
    fn trend(self, times: &[u32], delays: &[i64], now_ms: u64) -> Result<i32, Refusal>
        ensures { result ≡ answered (report_refusal self times.now delays.now now_ms) (trend_of (window self.owd_trend times.now delays.now)) }
    {
        let mut q = Questions::all_yes();
        q.state = self.keeps_rule();
        q.clocks = clock_ok(now_ms);
        q.windows = self.owd_trend.windows_ok(times.len(), delays.len());
        q.first_no()?;
        self.owd_trend.trend_us_per_sec(times, delays)
    }

    // A report ends the interval. No report where no frame has come since the last one.
    #[tactic(auto, unfolding(crate::specs::Reports::built_of, crate::specs::Reports::report_built, crate::specs::Reports::built, refusals::specs::Answers::answered, refusals::specs::Answers::settled_with))]
    pub fn build_report(
        self,
        times: &[u32],
        delays: &[i64],
        now_ms: u64,
    ) -> Result<(ReceiverState, Option<ReceiverReport>), Refused<ReceiverState>>
        ensures { result ≡ built_as (built_of self times.now delays.now now_ms) }
    {
        let owd_trend = self
            .trend(times, delays, now_ms)
            .map_err(|refusal| Refused {
                refusal,
                state: self,
            })?;
        if !self.interval_has_data {
            return Ok((self, None));
        }
        let stats = self.gap_tracker.take_interval_stats_unchecked();
        let report = self.report(stats, owd_trend, now_ms);
        Ok((self.reported(stats.tracker, now_ms), Some(report)))
    }
}
