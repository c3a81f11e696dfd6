// Joined tests, for the speed of `process_receiver_report` alone: they answer all questions of an ordinary report at once. Where one is false, the questions are
// put one by one.

ghost use Rattle.std.specs.Prelude.{◌≡◌, true};
ghost use Rattle.std.specs.Float.{binary64};
ghost use Rattle.std.specs.Float.Ieee.{add};
ghost use Rattle.floats.specs.Operations.{lesser};
ghost use Rattle.refusals.specs.Ranges.{clock_ok, optional_clock_ok, round_trip_ok, counter_ok};
ghost use Rattle.algorithms.specs.Srtt as estimator;
ghost use Rattle.metrics.specs.State.{trends_ok, ratios_ok, tallied};

use crate::MmpMetrics;
use floats::least;
use refusals::ranges::{MAX_DELAY_US, MAX_ETX, MAX_TREND};

// A count of reports, or 139 years in ms. No running count or clock has come that far.
const NEAR_CLOCK_OR_COUNT: u64 = 1 << 42;

// 51 days: one below the bound of a round trip.
const NEAR_ROUND_TRIP_US: i64 = MAX_DELAY_US - 1;

// A round trip below its bound.
fn near_us(us: i64) -> bool
    ensures { result ≡ true → round_trip_ok us ≡ true }
{
    (0 <= us) & (us <= NEAR_ROUND_TRIP_US)
}

fn sum_of(a: f64, b: f64, c: f64, d: f64, e: f64) -> f64
    ensures { result ≡ add binary64 (add binary64 (add binary64 (add binary64 a b) c) d) e }
{
    a + b + c + d + e
}

fn least_of(a: f64, b: f64, c: f64, d: f64, e: f64) -> f64
    ensures { result ≡ lesser (lesser (lesser (lesser a b) c) d) e }
{
    least(least(least(least(a, b), c), d), e)
}

impl MmpMetrics {
    // Trends, ratios, ETX and goodput are in range: lower ends, then upper. No trend, ratio or goodput is below the least of them; the trends and the goodput are at
    // most their sum, which is a NaN where one of them is. False proves nothing.
    pub(crate) fn floats_near(self) -> bool
        ensures { result ≡ true → (trends_ok self ≡ true) × (ratios_ok self ≡ true) }
    {
        let rtt = self.rtt_trend;
        let loss = self.loss_trend;
        let goodput = self.goodput_trend;
        let jitter = self.jitter_trend;
        let etx = self.etx_trend;
        let short = sum_of(
            rtt.short,
            loss.short,
            goodput.short,
            jitter.short,
            etx.short,
        );
        let long = sum_of(rtt.long, loss.long, goodput.long, jitter.long, etx.long);
        let total = short + long + self.goodput_bps;
        let least_short = least_of(
            rtt.short,
            loss.short,
            goodput.short,
            jitter.short,
            etx.short,
        );
        let least_long = least_of(rtt.long, loss.long, goodput.long, jitter.long, etx.long);
        let lowest = least_of(
            least_short,
            least_long,
            self.delivery_ratio_forward,
            self.delivery_ratio_reverse,
            self.goodput_bps,
        );
        if 1.0 <= self.etx {} else {
            return false;
        }
        if 0.0 <= lowest {} else {
            return false;
        }
        if total <= MAX_TREND {} else {
            return false;
        }
        if self.delivery_ratio_forward <= 1.0 {} else {
            return false;
        }
        if self.delivery_ratio_reverse <= 1.0 {} else {
            return false;
        }
        self.etx < MAX_ETX
    }

    // The clocks, the smoothed round trip and the counts are in range, none near its end. False proves nothing.
    pub(crate) fn numbers_near(self, now_ms: u64) -> bool
        ensures { result ≡ true → (optional_clock_ok self.prev_rr_ms ≡ true)
            × (estimator.keeps_the_rule self.srtt ≡ true)
            × (tallied self ≡ true)
            × (clock_ok now_ms ≡ true)
            × (counter_ok 64 self.reports_seen 1 ≡ true) }
    {
        let prev = self.prev_rr_ms.unwrap_or(0);
        let smoothed = near_us(self.srtt.srtt_us);
        let variation = near_us(self.srtt.rttvar_us);
        let near = (prev < NEAR_CLOCK_OR_COUNT)
            & (now_ms < NEAR_CLOCK_OR_COUNT)
            & (self.reports_seen < NEAR_CLOCK_OR_COUNT)
            & smoothed
            & variation;
        near && self.tallies_ok()
    }
}
