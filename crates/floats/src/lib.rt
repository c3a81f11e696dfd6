// Floats as the link's figures use them. Each contract is an equation with a definition of specs/.

#![tactic(auto)]

ghost use Rattle.std.specs.Prelude.{◌≡◌, pos};
ghost use Rattle.std.specs.Float.Ieee as Ieee;
ghost use Rattle.std.specs.Float.{binary64};
ghost use Rattle.floats.specs.Operations.{in_range, clamped, step, complement, rounded_quotient, lesser};

// --- Ranges ---

// From lo to hi. No NaN passes.
pub fn in_range(x: f64, lo: f64, hi: f64) -> bool
    ensures { result ≡ in_range lo hi x }
{
    (lo <= x) & (x <= hi)
}

// Rust's `clamp`, for any ends. A NaN stays one.
#[tactic(auto, unfolding(crate::specs::Operations::clamped))]
pub fn clamp(x: f64, lo: f64, hi: f64) -> f64
    ensures { result ≡ clamped lo hi x }
{
    if x < lo {
        return lo;
    }
    if x > hi {
        return hi;
    }
    x
}

// The lesser of two numbers; b where one is a NaN.
#[tactic(auto, unfolding(crate::specs::Operations::lesser))]
pub fn least(a: f64, b: f64) -> f64
    ensures { result ≡ lesser a b }
{
    if a < b { a } else { b }
}

// --- Steps ---

// s moved toward the sample x by the part alpha.
#[tactic(auto, unfolding(crate::specs::Operations::step))]
pub fn step(alpha: f64, s: f64, x: f64) -> f64
    ensures { result ≡ step binary64 alpha s x }
{
    s + alpha * (x - s)
}

// --- Whole numbers as floats ---

// 2^53: up to it a float holds every whole number, and one instruction gives it.
const MAX_EXACT: u64 = 1 << 53;

const MAX_EXACT_I64: i64 = MAX_EXACT as i64;

// Rust's `n as f64` of a u64. It and the next are not one generic function: each has its type's own exact range and library function.
pub fn nearest_u64_to_f64(n: u64) -> f64
    ensures { result ≡ Ieee.of_int binary64 (pos n) }
{
    if n <= MAX_EXACT {
        n as f64
    } else {
        std::num::nearest_u64_to_f64(n)
    }
}

// Rust's `n as f64` of an i64.
pub fn nearest_i64_to_f64(n: i64) -> f64
    ensures { result ≡ Ieee.of_int binary64 n }
{
    if (0 <= n) & (n <= MAX_EXACT_I64) {
        n as f64
    } else {
        std::num::nearest_i64_to_f64(n)
    }
}

// --- Ratios ---

// The loss beside a delivery ratio.
#[tactic(auto, unfolding(crate::specs::Operations::complement))]
pub fn one_minus(x: f64) -> f64
    ensures { result ≡ complement binary64 x }
{
    1.0 - x
}

// Rust's `a as f64 / b as f64`.
#[tactic(auto, unfolding(crate::specs::Operations::rounded_quotient))]
pub fn quotient(a: u64, b: u64) -> f64
    ensures { result ≡ rounded_quotient binary64 a b }
{
    nearest_u64_to_f64(a) / nearest_u64_to_f64(b)
}

// --- Casts ---

// Rust's `x as i32`, under the definition that contracts cite: cut toward zero, an end of the range where x is beyond it, and 0 for a NaN.
pub fn to_i32(x: f64) -> i32
    ensures { result ≡ Ieee.to_signed 31 x }
{
    std::num::saturating_f64_to_i32(x)
}
