// The table of document 01, "Promises and the checked examples": the rows of the estimators, and refused calls beside them.
use crate::lines::{Lines, Shown};
use algorithms::etx::{compute_etx, quality_index};
use algorithms::ewma::DualEwma;
use algorithms::jitter::JitterEstimator;
use algorithms::srtt::SrttEstimator;
use numbers::signs::unsigned;

// J 0, D 16, then 0; and D −2^31.
pub fn jitter(out: &mut impl Lines) -> Shown {
    let one = JitterEstimator::new().update(16)?;
    out.number("jitter of D 16", one.jitter_us()?, 1)?;
    let two = one.update(0)?;
    out.number("jitter of D 16, 0", two.jitter_us()?, 0)?;
    let least = JitterEstimator::new().update(i32::MIN)?;
    out.number("jitter of D -2^31", least.jitter_us()?, 134_217_728)?;
    let broken = JitterEstimator { jitter_q4: -1 };
    out.refusal("scaled jitter -1", broken.update(16), 1)
}

// RTT 3000, 11000, 3000 µs.
pub fn round_trip(out: &mut impl Lines) -> Shown {
    let mut srtt = SrttEstimator::new();
    for (rtt_us, name, srtt_us, rttvar_us) in [
        (3000, "3000", 3000, 1500),
        (11000, "3000, 11000", 4000, 3125),
        (3000, "3000, 11000, 3000", 3875, 2594),
    ] {
        srtt = srtt.update(rtt_us)?;
        out.number(
            format_args!("SRTT of {name}"),
            unsigned(srtt.srtt_us),
            srtt_us,
        )?;
        out.number(
            format_args!("RTTVAR of {name}"),
            unsigned(srtt.rttvar_us),
            rttvar_us,
        )?;
    }
    out.refusal("round trip -1", srtt.update(-1), 8)
}

// A short trend moves by a quarter, a long one by a thirty-second; a NaN is refused, also as the first sample.
pub fn trends(out: &mut impl Lines) -> Shown {
    let new = DualEwma::new();
    let two = new.update(100.0)?.update(200.0)?;
    out.holds("short trend of 100, 200 is 125", two.short == 125.0)?;
    out.holds("long trend of 100, 200 is 103.125", two.long == 103.125)?;
    out.refusal("NaN as a first sample", new.update(f64::NAN), 11)?;
    out.refusal("-0.0 as a first sample", new.update(-0.0), 0)
}

// Ratios 0.5, 0.5 and 0, 1.
pub fn etx(out: &mut impl Lines) -> Shown {
    out.holds("ETX of 0.5, 0.5 is 4", compute_etx(0.5, 0.5)? == 4.0)?;
    out.holds("ETX of 0, 1 is 100", compute_etx(0.0, 1.0)? == 100.0)?;
    out.refusal("ETX of -0.0, 1: refusal", compute_etx(-0.0, 1.0), 0)?;
    out.refusal("ETX of 1.5, 1: refusal", compute_etx(1.5, 1.0), 11)?;
    out.holds(
        "quality of ETX 2, 50 ms is 3",
        quality_index(2.0, 50.0)? == 3.0,
    )?;
    out.refusal("quality of ETX 0.5: refusal", quality_index(0.5, 50.0), 11)
}
