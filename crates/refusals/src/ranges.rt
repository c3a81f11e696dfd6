// The numbers that the questions allow, a test for each.

ghost use Rattle.std.specs.Prelude.{◌≡◌};
ghost use Rattle.refusals.specs.Ranges.{clock_ok, optional_clock_ok, frame_size_ok, delay_ok, round_trip_ok, smoothed_ok, bounds_ok, counter_ok, ratio_ok, etx_ok, rtt_ms_ok, trend_ok};

use floats::in_range;

// The greatest clock reading, interval and interval bound, in ms.
pub const MAX_CLOCK_MS: u64 = (1 << 48) - 1;

// The greatest frame size.
pub const MAX_FRAME_BYTES: usize = u32::MAX as usize;

// The greatest delay sample, round trip and smoothed round trip, in µs. A delay may be as far below 0.
pub const MAX_DELAY_US: i64 = 1 << 42;

// The greatest ETX.
pub const MAX_ETX: f64 = 100.0;

// 2^33: the greatest round trip in ms that is handed in beside a state.
pub const MAX_RTT_MS: f64 = 8_589_934_592.0;

// 2^64: the greatest trend sample.
pub const MAX_TREND: f64 = 18_446_744_073_709_551_616.0;

// Question 2: a clock reading, an interval, an interval bound.
pub fn clock_ok(ms: u64) -> bool
    ensures { result ≡ clock_ok ms }
{
    ms <= MAX_CLOCK_MS
}

// Question 2: a clock reading that may be missing.
pub fn optional_clock_ok(ms: Option<u64>) -> bool
    ensures { result ≡ optional_clock_ok ms }
{
    ms.is_none_or(clock_ok)
}

// Question 3: a frame's size.
pub fn frame_size_ok(bytes: usize) -> bool
    ensures { result ≡ frame_size_ok bytes }
{
    bytes <= MAX_FRAME_BYTES
}

// Question 5: a delay sample.
pub fn delay_ok(us: i64) -> bool
    ensures { result ≡ delay_ok us }
{
    (-MAX_DELAY_US <= us) & (us <= MAX_DELAY_US)
}

// Question 8: a round trip for the estimator.
pub fn round_trip_ok(us: i64) -> bool
    ensures { result ≡ round_trip_ok us }
{
    (0 <= us) & (us <= MAX_DELAY_US)
}

// Question 8: a smoothed value for scheduling.
pub fn smoothed_ok(us: i64) -> bool
    ensures { result ≡ smoothed_ok us }
{
    us <= MAX_DELAY_US
}

// Question 9: the interval bounds in order. A smoothed value of 0 or less asks for none.
pub fn bounds_ok(srtt_us: i64, min_ms: u64, max_ms: u64) -> bool
    ensures { result ≡ bounds_ok srtt_us min_ms max_ms }
{
    (srtt_us <= 0) | (min_ms <= max_ms)
}

// Question 10: a counter of 32 bits that gains `more`. Two widths, each one line: joined by a trait they would be longer.
pub fn counter_u32_ok(count: u32, more: u32) -> bool
    ensures { result ≡ counter_ok 32 count more }
{
    count <= u32::MAX - more
}

// Question 10: a counter of 64 bits that gains `more`.
pub fn counter_u64_ok(count: u64, more: u64) -> bool
    ensures { result ≡ counter_ok 64 count more }
{
    count <= u64::MAX - more
}

// Question 11: a ratio.
pub fn ratio_ok(x: f64) -> bool
    ensures { result ≡ ratio_ok x }
{
    in_range(x, 0.0, 1.0)
}

// Question 11: an ETX.
pub fn etx_ok(x: f64) -> bool
    ensures { result ≡ etx_ok x }
{
    in_range(x, 1.0, MAX_ETX)
}

// Question 11: a round trip in ms.
pub fn rtt_ms_ok(x: f64) -> bool
    ensures { result ≡ rtt_ms_ok x }
{
    in_range(x, 0.0, MAX_RTT_MS)
}

// Question 11: a sample for a trend.
pub fn trend_ok(x: f64) -> bool
    ensures { result ≡ trend_ok x }
{
    in_range(x, 0.0, MAX_TREND)
}
