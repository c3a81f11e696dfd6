// The checks: each range at its ends, and the first "no".
use crate::lines::{Lines, Shown};
use refusals::questions::Questions;
use refusals::ranges::{
    clock_ok, delay_ok, etx_ok, frame_size_ok, ratio_ok, round_trip_ok, rtt_ms_ok, smoothed_ok,
    trend_ok,
};

// The greatest delay and round trip, in µs.
const FOUR_TERA: i64 = 1 << 42;

pub fn ranges(out: &mut impl Lines) -> Shown {
    out.holds("clock 2^48 - 1 is in range", clock_ok((1 << 48) - 1))?;
    out.holds("clock 2^48 is not", !clock_ok(1 << 48))?;
    out.holds(
        "frame of 2^32 - 1 bytes is in range",
        frame_size_ok((1 << 32) - 1),
    )?;
    out.holds("frame of 2^32 bytes is not", !frame_size_ok(1 << 32))?;
    out.holds("delay -2^42 is in range", delay_ok(-FOUR_TERA))?;
    out.holds("delay -2^42 - 1 is not", !delay_ok(-FOUR_TERA - 1))?;
    out.holds("round trip 2^42 is in range", round_trip_ok(FOUR_TERA))?;
    out.holds("round trip -1 is not", !round_trip_ok(-1))?;
    out.holds("smoothed value -1 is in range", smoothed_ok(-1))?;
    out.holds(
        "smoothed value 2^42 + 1 is not",
        !smoothed_ok(FOUR_TERA + 1),
    )?;
    floats(out)
}

fn floats(out: &mut impl Lines) -> Shown {
    out.holds("ratio -0.0 is in range", ratio_ok(-0.0))?;
    out.holds("ratio NaN is not", !ratio_ok(f64::NAN))?;
    out.holds("ETX 100 is in range", etx_ok(100.0))?;
    out.holds("ETX 0.99 is not", !etx_ok(0.99))?;
    out.holds("RTT of 2^33 ms is in range", rtt_ms_ok(8_589_934_592.0))?;
    out.holds(
        "trend sample 2^64 is in range",
        trend_ok(18_446_744_073_709_551_616.0),
    )?;
    out.holds("trend sample NaN is not", !trend_ok(f64::NAN))
}

// Two "no": the first in the order of document 01, "Before any figure: the checks", refuses.
pub fn order(out: &mut impl Lines) -> Shown {
    let mut q = Questions::all_yes();
    out.refusal("eleven yeses", q.first_no(), 0)?;
    q.values = false;
    out.refusal("no to 11", q.first_no(), 11)?;
    q.clocks = false;
    out.refusal("no to 11 and 2", q.first_no(), 2)
}
