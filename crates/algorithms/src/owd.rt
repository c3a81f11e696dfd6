// The one-way delay trend: a linear regression over a ring of pairs (receive ms, delay µs) in two lent buffers.

ghost use Rattle.std.specs.Prelude.{◌≡◌, ◌+◌, min, true, slice_set};
ghost use Rattle.floats.specs.Operations.{zero_float};
ghost use Rattle.refusals.specs.Answers.{settled, told};
ghost use Rattle.algorithms.specs.Owd.{Rule, Lent, keeps_the_rule, windows_ok, empty, new_of, clear_answer, onward, free, grown, push_refusal, push_answer, stored, window, samples_ok};
ghost use Rattle.algorithms.specs.OwdTrend.{time, delay, product, total, trend_from, live_trend, trend_answer};
ghost use Rattle.algorithms.specs.Passes.{summed};

use crate::passes::{Moments, Sums, moments_over, sums_over};
use refusals::questions::Questions;
use refusals::refusal::{Refusal, Refused};

// Two lent buffers, no list of pairs and no struct of both: the rules have them so, and the memory is the caller's. The live pairs stand in `count` slots from `first`
// on, oldest first; after the last slot comes slot 0. `Lent` is no invariant of a type either: a caller may hand in buffers of any length.
#[derive(Clone, Copy)]
pub struct OwdTrendDetector {
    pub capacity: usize,
    pub count: usize,
    pub first: usize,
}

// The slot n after this one, counted past a ring's end again from slot 0.
fn onward(capacity: usize, slot: usize, n: usize) -> usize
    ensures { result ≡ onward capacity slot n }
{
    let left = capacity.saturating_sub(slot);
    if n < left { slot + n } else { n - left }
}

// A slot past the end is not there to be written.
fn put<T: Copy>(slots: &mut [T], slot: usize, value: T)
    ensures { slots.new ≡ slice_set slots.old slot value }
{
    // Not `get_mut`: the library says no more than the length of a slice that is written through it.
    if slot < slots.len() {
        slots[slot] = value;
    }
}

impl OwdTrendDetector {
    // The rule of a window (document 01, "State rule").
    #[tactic(auto, unfolding(crate::specs::Owd::keeps_the_rule))]
    pub fn keeps_rule(self) -> bool
        ensures { result ≡ keeps_the_rule self }
    {
        (limits::MIN_OWD_WINDOW_SIZE <= self.capacity)
            & (self.capacity <= limits::MAX_OWD_WINDOW_SIZE)
            & (self.count <= self.capacity)
            & (self.first < self.capacity)
    }

    // Question 4, of the buffers' lengths.
    pub fn windows_ok(self, times: usize, delays: usize) -> bool
        ensures { result ≡ windows_ok self times delays }
    {
        (times == self.capacity) & (delays == self.capacity)
    }

    // No live pair.
    fn empty(capacity: usize) -> Self
        ensures { result ≡ empty capacity }
    {
        Self {
            capacity,
            count: 0,
            first: 0,
        }
    }

    // A detector that keeps the last `capacity` pairs: below two no slope forms.
    #[tactic(auto, unfolding(crate::specs::Owd::new_of))]
    pub fn new(capacity: usize) -> Self
        ensures { result ≡ new_of capacity }
    {
        Self::empty(capacity.clamp(limits::MIN_OWD_WINDOW_SIZE, limits::MAX_OWD_WINDOW_SIZE))
    }

    // `clear` for a record that has asked its questions.
    pub fn clear_unchecked(self) -> Self
        ensures { result ≡ empty self.capacity }
    {
        Self::empty(self.capacity)
    }

    // Forget every pair, keeping the capacity.
    #[tactic(auto, unfolding(crate::specs::Owd::clear_answer, refusals::specs::Questions::first_no, refusals::specs::Questions::asked, refusals::specs::Answers::admitted, refusals::specs::Answers::settled))]
    pub fn clear(self) -> Result<Self, Refused<Self>>
        ensures { result ≡ settled (clear_answer self) }
    {
        let mut q = Questions::all_yes();
        q.state = self.keeps_rule();
        q.admit(self)?;
        Ok(self.clear_unchecked())
    }

    // The slot for the next pair: after the newest, and the oldest's where the window is full.
    #[tactic(auto, unfolding(crate::specs::Owd::free))]
    fn free(self) -> usize
        ensures { result ≡ free self }
    {
        onward(self.capacity, self.first, self.count)
    }

    // One pair more; a full window has dropped its oldest.
    #[tactic(auto, unfolding(crate::specs::Owd::grown))]
    fn grown(self) -> Self
        ensures { result ≡ grown self }
    {
        if self.count < self.capacity {
            Self {
                count: self.count + 1,
                ..self
            }
        } else {
            Self {
                first: onward(self.capacity, self.first, 1),
                ..self
            }
        }
    }

    // `push` for a record that has asked its questions: one slot of each buffer is set.
    pub fn push_unchecked(
        self,
        times: &mut [u32],
        delays: &mut [i64],
        at_ms: u32,
        owd_us: i64,
    ) -> Self
        ensures answer { result ≡ grown self }
        ensures times { times.new ≡ slice_set times.old (free self) at_ms }
        ensures delays { delays.new ≡ slice_set delays.old (free self) owd_us }
    {
        let slot = self.free();
        put(times, slot, at_ms);
        put(delays, slot, owd_us);
        self.grown()
    }

    // Add a pair: the receive time in ms and the delay in µs, both from a fixed reference.
    #[tactic(auto, unfolding(crate::specs::Owd::push_answer, crate::specs::Owd::push_refusal, crate::specs::Owd::stored, refusals::specs::Questions::first_no, refusals::specs::Questions::asked, refusals::specs::Answers::admitted, refusals::specs::Answers::settled))]
    pub fn push(
        self,
        times: &mut [u32],
        delays: &mut [i64],
        at_ms: u32,
        owd_us: i64,
    ) -> Result<Self, Refused<Self>>
        ensures answer { result ≡ settled (push_answer self times.old delays.old owd_us) }
        ensures times { times.new ≡ stored (push_refusal self times.old delays.old owd_us) self at_ms times.old }
        ensures delays { delays.new ≡ stored (push_refusal self times.old delays.old owd_us) self owd_us delays.old }
    {
        let mut q = Questions::all_yes();
        q.state = self.keeps_rule();
        q.windows = self.windows_ok(times.len(), delays.len());
        q.delay_samples = refusals::ranges::delay_ok(owd_us);
        q.admit(self)?;
        Ok(self.push_unchecked(times, delays, at_ms, owd_us))
    }

    // Where the run of live slots from `first` on ends: at the newest pair or at the buffers' end.
    fn stop(self) -> usize
        requires { Rule self }
        ensures { result ≡ min (self.first + self.count) self.capacity }
    {
        (self.first + self.count).min(self.capacity)
    }

    // The sums over the window, in two straight runs. The Rust's `sum` starts from −0.0, which gives the same sums of casts.
    fn window_sums(self, times: &[u32], delays: &[i64]) -> Result<Sums, Refusal>
        requires { Lent self times.now delays.now }
        ensures { result ≡ summed zero_float zero_float (window self times.now delays.now) }
    {
        let first = self.first;
        let stop = self.stop();
        let rest = first + self.count - stop;
        let none = Sums { x: 0.0, y: 0.0 };
        let run = sums_over(&times[first..stop], &delays[first..stop], none)?;
        sums_over(&times[..rest], &delays[..rest], run)
    }

    // The moments over the window, in two straight runs.
    fn window_moments(self, times: &[u32], delays: &[i64], mean_x: f64, mean_y: f64) -> Moments
        requires { Lent self times.now delays.now × (samples_ok (window self times.now delays.now) ≡ true) }
        ensures { (result.num ≡ total (product time mean_x delay mean_y) (window self times.now delays.now))
            × (result.den ≡ total (product time mean_x time mean_x) (window self times.now delays.now)) }
    {
        let first = self.first;
        let stop = self.stop();
        let rest = first + self.count - stop;
        let none = Moments { num: 0.0, den: 0.0 };
        let run = moments_over(
            &times[first..stop],
            &delays[first..stop],
            mean_x,
            mean_y,
            none,
        );
        moments_over(&times[..rest], &delays[..rest], mean_x, mean_y, run)
    }

    // The slope about the means that the sums give; 0 below f64::EPSILON. The Rust's clamp before its cast changes nothing.
    fn trend_from(self, times: &[u32], delays: &[i64], sums: Sums) -> i32
        requires { Lent self times.now delays.now × (samples_ok (window self times.now delays.now) ≡ true) }
        ensures { result ≡ trend_from sums.x sums.y (window self times.now delays.now) }
    {
        let n = self.count;
        if n < 2 {
            return 0;
        }
        let n_f = n as f64;
        let m = self.window_moments(times, delays, sums.x / n_f, sums.y / n_f);
        if m.den < f64::EPSILON {
            return 0;
        }
        floats::to_i32(m.num / m.den * 1000.0)
    }

    // Question 5 of every live pair, then the trend.
    #[tactic(auto, unfolding(crate::specs::OwdTrend::live_trend, crate::specs::OwdTrend::trend_of, crate::specs::Passes::summed, refusals::specs::Answers::answered))]
    fn live_trend(self, times: &[u32], delays: &[i64]) -> Result<i32, Refusal>
        requires { Lent self times.now delays.now }
        ensures { result ≡ told (live_trend (window self times.now delays.now)) }
    {
        let sums = self.window_sums(times, delays)?;
        Ok(self.trend_from(times, delays, sums))
    }

    // The delay trend as a slope in µs per second: Σ(x − x̄)(y − ȳ) / Σ(x − x̄)², times 1000. 0 for fewer than two pairs, or where all came at one time.
    pub fn trend_us_per_sec(self, times: &[u32], delays: &[i64]) -> Result<i32, Refusal>
        ensures { result ≡ told (trend_answer self times.now delays.now) }
    {
        let mut q = Questions::all_yes();
        q.state = self.keeps_rule();
        q.windows = self.windows_ok(times.len(), delays.len());
        q.first_no()?;
        self.live_trend(times, delays)
    }
}
