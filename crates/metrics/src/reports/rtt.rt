// RTT from timestamp echo.

ghost use Rattle.std.specs.Prelude.{◌≡◌};
ghost use Rattle.metrics.specs.Reports.{Room, sampled, rtt_updated, rtt_log};

use crate::{MmpMetrics, RrLog};
use figures::{RoundTrip, smoothed_ms_unchecked};

impl MmpMetrics {
    // A sample of whole milliseconds.
    #[tactic(auto, unfolding(crate::specs::Reports::sampled))]
    fn sample(&mut self, ms: u32)
        requires { Room self.old }
        ensures { self.new ≡ sampled self.old ms }
    {
        let us = 1000 * u64::from(ms);
        self.srtt = self.srtt.update_unchecked(us.cast_signed());
        self.rtt_trend = self
            .rtt_trend
            .update_unchecked(floats::nearest_u64_to_f64(us));
        self.rtt_samples += 1;
        self.last_rtt_ms = Some(ms);
    }

    #[tactic(auto, unfolding(crate::specs::Reports::rtt_updated))]
    pub(crate) fn update_rtt(&mut self, trip: RoundTrip)
        requires { Room self.old }
        ensures { self.new ≡ rtt_updated self.old trip }
    {
        match trip {
            RoundTrip::NoEcho => self.no_echo_reports += 1,
            RoundTrip::Sample(ms) => self.sample(ms),
            RoundTrip::Zero => self.rtt_zero += 1,
            RoundTrip::ArithFail => self.rtt_arith_fail += 1,
        }
    }

    // The log entry, with SRTT as it stands before the sample.
    #[tactic(auto, unfolding(crate::specs::Reports::rtt_log))]
    pub(crate) fn rtt_log(self, trip: RoundTrip) -> RrLog
        ensures { result ≡ rtt_log self trip }
    {
        match trip {
            RoundTrip::NoEcho => RrLog::None,
            RoundTrip::Sample(rtt_ms) => RrLog::RttSample {
                rtt_ms,
                srtt_ms: smoothed_ms_unchecked(self.srtt),
            },
            RoundTrip::Zero | RoundTrip::ArithFail => RrLog::InvalidRtt,
        }
    }
}
