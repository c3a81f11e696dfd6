// Floats: casts that cut and saturate, and the two smoothing steps.
use crate::lines::{Lines, Shown};
use floats::to_i32;

pub fn casts(out: &mut impl Lines) -> Shown {
    out.holds("1.9 as i32 is 1", to_i32(1.9) == 1)?;
    out.holds("-1.9 as i32 is -1", to_i32(-1.9) == -1)?;
    out.holds("1e10 as i32 is 2147483647", to_i32(1e10) == i32::MAX)?;
    out.holds("-1e10 as i32 is -2147483648", to_i32(-1e10) == i32::MIN)?;
    out.holds("NaN as i32 is 0", to_i32(f64::NAN) == 0)
}

// Moved by one quarter and one thirty-second.
pub fn steps(out: &mut impl Lines) -> Shown {
    out.holds(
        "100 toward 200 by a quarter is 125",
        floats::step(1.0 / 4.0, 100.0, 200.0) == 125.0,
    )?;
    out.holds(
        "100 toward 200 by a thirty-second is 103.125",
        floats::step(1.0 / 32.0, 100.0, 200.0) == 103.125,
    )?;
    out.holds("1 - 0.25 is 0.75", floats::one_minus(0.25) == 0.75)?;
    out.holds("3 of 4 is 0.75", floats::quotient(3, 4) == 0.75)?;
    out.holds(
        "2 clamped to 0 to 1 is 1",
        floats::clamp(2.0, 0.0, 1.0) == 1.0,
    )
}
