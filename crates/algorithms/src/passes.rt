// The two passes over a delay window, each along a straight run of slots.

ghost use Rattle.std.specs.Prelude.{◌≡◌, true, length};
ghost use Rattle.std.specs.Float.{binary64};
ghost use Rattle.std.specs.Float.Ieee.{of_int};
ghost use Rattle.refusals.specs.Ranges.{delay_ok};
ghost use Rattle.algorithms.specs.Owd.{pairs, samples_ok};
ghost use Rattle.algorithms.specs.OwdTrend.{time, delay, product, plus};
ghost use Rattle.algorithms.specs.Passes.{summed};

use refusals::refusal::Refusal;

// The sums of the times and of the delays.
#[derive(Clone, Copy)]
pub(crate) struct Sums {
    pub(crate) x: f64,
    pub(crate) y: f64,
}

// The sums of dx * dy and of dx * dx.
#[derive(Clone, Copy)]
pub(crate) struct Moments {
    pub(crate) num: f64,
    pub(crate) den: f64,
}

// A delay in range as a float, which holds it exactly.
fn exact(owd_us: i64) -> f64
    requires { delay_ok owd_us ≡ true }
    ensures { result ≡ of_int binary64 owd_us }
{
    owd_us as f64
}

// The sums moved on by the pairs of a run of slots, each of whose delays is asked question 5.
pub(crate) fn sums_over(times: &[u32], delays: &[i64], start: Sums) -> Result<Sums, Refusal>
    requires { length delays.now ≡ length times.now }
    ensures { result ≡ summed start.x start.y (pairs times.now delays.now) }
{
    let mut x = start.x;
    let mut y = start.y;
    for (at_ms, owd_us) in times.iter().zip(delays) {
        if !refusals::ranges::delay_ok(*owd_us) {
            return Err(Refusal::DelaySamples);
        }
        x += f64::from(*at_ms);
        y += exact(*owd_us);
    }
    Ok(Sums { x, y })
}

// The moments moved on by the pairs of a run of slots.
pub(crate) fn moments_over(
    times: &[u32],
    delays: &[i64],
    mean_x: f64,
    mean_y: f64,
    start: Moments,
) -> Moments
    requires { (length delays.now ≡ length times.now) × (samples_ok (pairs times.now delays.now) ≡ true) }
    ensures { (result.num ≡ plus (product time mean_x delay mean_y) start.num (pairs times.now delays.now))
        × (result.den ≡ plus (product time mean_x time mean_x) start.den (pairs times.now delays.now)) }
{
    let mut num = start.num;
    let mut den = start.den;
    for (at_ms, owd_us) in times.iter().zip(delays) {
        let dx = f64::from(*at_ms) - mean_x;
        let dy = exact(*owd_us) - mean_y;
        num += dx * dy;
        den += dx * dx;
    }
    Moments { num, den }
}
