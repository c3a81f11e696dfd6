// receiver.rs, Gap Tracker: gaps in the counters of the frames that come, as bursts of lost frames. `_unchecked` is for a record that has asked the questions.

#![tactic(auto)]

pub mod checked; // checked.rt: the calls behind their questions

ghost use Rattle.std.specs.Prelude.{◌≡◌};
ghost use Rattle.gaps.specs.Gaps.{keeps_the_rule, finished_bursts, fresh, gap_at, begins_burst, bursts_ok, expecting, next_after, arrival_after, lost_before, burst_finished, gap_length, gap_counted, gap_observed, observed};
ghost use Rattle.gaps.specs.Stats.{mean_burst, stats_of};

use refusals::ranges::counter_u32_ok;

// The greatest length of a burst.
pub const MAX_BURST_LEN: u64 = u16::MAX as u64;

// Each gap in the counter sequence is a burst of lost frames.
#[derive(Clone, Copy)]
pub struct GapTracker {
    // Next expected counter value.
    pub expected_next: Option<u64>,
    // Whether we are currently in a burst (gap). A flag beside the length and no Option: a call hands back, and replay prints, the length where it is off too.
    pub in_burst: bool,
    // Length of the current burst.
    pub current_burst_len: u16,
    // --- Per-interval stats (reset on report) ---
    // Number of distinct burst events this interval.
    pub burst_count: u32,
    // Longest burst in this interval.
    pub max_burst_len: u16,
    // Sum of all burst lengths (for mean computation).
    pub total_burst_len: u64,
}

// Where a frame's counter stands beside the expected one.
#[derive(Clone, Copy)]
pub enum Arrival {
    // No frame came before, so none was expected.
    First,
    InSequence,
    // So many frames are missing before it.
    Gap(u64),
    // That far below: expected minus counter.
    Behind(u64),
}

// Where the frame observed stands, and the tracker after it.
#[derive(Clone, Copy)]
pub struct Observed {
    pub arrival: Arrival,
    pub tracker: GapTracker,
}

// An interval's bursts: their number, the longest and the mean in 1/256 of a frame; and the tracker for the next interval.
#[derive(Clone, Copy)]
pub struct IntervalStats {
    pub count: u32,
    pub max: u16,
    pub mean: u16,
    pub tracker: GapTracker,
}

// The length that a gap adds. It stops where 16 bits do, so that no bit is dropped.
fn gap_len(gap: u64) -> u16
    ensures { result ≡ gap_length gap }
{
    u16::try_from(gap).unwrap_or(u16::MAX)
}

// The frames lost before such an arrival: what the Rust's `observe` answers.
pub fn lost_before(arrival: Arrival) -> u64
    ensures { result ≡ lost_before arrival }
{
    match arrival {
        Arrival::Gap(missing) => missing,
        Arrival::First | Arrival::InSequence | Arrival::Behind(_) => 0,
    }
}

// Where a counter stands beside the expected one.
#[tactic(auto, unfolding(crate::specs::Gaps::arrival_after))]
fn arrival_after(expected: u64, counter: u64) -> Arrival
    ensures { result ≡ arrival_after expected counter }
{
    if expected < counter {
        return Arrival::Gap(counter - expected);
    }
    if counter < expected {
        return Arrival::Behind(expected - counter);
    }
    Arrival::InSequence
}

// The counter expected after this one, or the one expected before where the frame is late.
#[tactic(auto, unfolding(crate::specs::Gaps::next_after))]
fn next_after(expected: u64, counter: u64) -> u64
    ensures { result ≡ next_after expected counter }
{
    if expected <= counter {
        counter.saturating_add(1)
    } else {
        expected
    }
}

// The frames missing before this counter, if one was expected.
fn gap_at(expected_next: Option<u64>, counter: u64) -> u64
    ensures { result ≡ gap_at expected_next counter }
{
    expected_next.map_or(0, |expected| counter.saturating_sub(expected))
}

// The mean length in 1/256 of a frame, by whole numbers. It stops at what 16 bits hold, and is past that wherever the product saturates.
#[tactic(auto, unfolding(crate::specs::Stats::mean_burst))]
pub fn mean_burst(total: u64, count: u32) -> u16
    ensures { result ≡ mean_burst total count }
{
    if count == 0 {
        return 0;
    }
    u16::try_from(total.saturating_mul(256) / u64::from(count)).unwrap_or(u16::MAX)
}

impl GapTracker {
    pub fn new() -> GapTracker
        ensures { result ≡ fresh }
    {
        GapTracker {
            expected_next: None,
            in_burst: false,
            current_burst_len: 0,
            burst_count: 0,
            max_burst_len: 0,
            total_burst_len: 0,
        }
    }

    // The bursts that have ended: the one under way is counted already.
    #[tactic(auto, unfolding(crate::specs::Gaps::finished_bursts))]
    fn finished_bursts(self) -> u32
        ensures { result ≡ finished_bursts self }
    {
        if self.in_burst {
            self.burst_count.saturating_sub(1)
        } else {
            self.burst_count
        }
    }

    #[tactic(auto, unfolding(crate::specs::Gaps::keeps_the_rule, crate::specs::Gaps::finished_bursts))]
    pub fn keeps_rule(self) -> bool
        ensures { result ≡ keeps_the_rule self }
    {
        let most = MAX_BURST_LEN * u64::from(self.finished_bursts());
        (self.in_burst | (self.current_burst_len == 0))
            & (!self.in_burst | (1 <= self.burst_count))
            & (self.total_burst_len <= most)
    }

    // Whether a frame of this counter begins a burst.
    pub fn begins_burst(self, counter: u64) -> bool
        ensures { result ≡ begins_burst self counter }
    {
        !self.in_burst & (1 <= gap_at(self.expected_next, counter))
    }

    // Question 10, of the bursts: the count is raised only where this frame begins one.
    pub fn bursts_ok(self, counter: u64) -> bool
        ensures { result ≡ bursts_ok self counter }
    {
        !self.begins_burst(counter) | counter_u32_ok(self.burst_count, 1)
    }

    fn expecting(self, next: u64) -> GapTracker
        ensures { result ≡ expecting self next }
    {
        GapTracker {
            expected_next: Some(next),
            ..self
        }
    }

    // Finish the current burst and record its stats.
    #[tactic(auto, unfolding(crate::specs::Gaps::burst_finished))]
    pub fn finish_burst_unchecked(self) -> GapTracker
        ensures { result ≡ burst_finished self }
    {
        if !self.in_burst {
            return self;
        }
        let len = self.current_burst_len;
        GapTracker {
            in_burst: false,
            current_burst_len: 0,
            max_burst_len: self.max_burst_len.max(len),
            total_burst_len: self.total_burst_len.saturating_add(u64::from(len)),
            ..self
        }
    }

    // A gap begins a burst, or extends the one under way.
    #[tactic(auto, unfolding(crate::specs::Gaps::gap_counted))]
    fn count_gap(self, gap: u64) -> GapTracker
        ensures { result ≡ gap_counted self gap }
    {
        if self.in_burst {
            GapTracker {
                current_burst_len: self.current_burst_len.saturating_add(gap_len(gap)),
                ..self
            }
        } else {
            GapTracker {
                in_burst: true,
                current_burst_len: gap_len(gap),
                burst_count: self.burst_count.saturating_add(1),
                ..self
            }
        }
    }

    // A frame in order ends a burst.
    #[tactic(auto, unfolding(crate::specs::Gaps::gap_observed, crate::specs::Gaps::gap_counted, crate::specs::Gaps::burst_finished))]
    fn observe_gap(self, gap: u64) -> GapTracker
        ensures { result ≡ gap_observed self gap }
    {
        if gap == 0 {
            self.finish_burst_unchecked()
        } else {
            self.count_gap(gap)
        }
    }

    // Process a received counter value. The first frame only says which counter is expected next.
    #[tactic(auto, unfolding(crate::specs::Gaps::observed, crate::specs::Gaps::arrival_after, crate::specs::Gaps::gap_observed, crate::specs::Gaps::gap_counted, crate::specs::Gaps::burst_finished, crate::specs::Gaps::next_after))]
    pub fn observe_unchecked(self, counter: u64) -> Observed
        ensures { result ≡ observed self counter }
    {
        match self.expected_next {
            None => Observed {
                arrival: Arrival::First,
                tracker: self.expecting(counter.saturating_add(1)),
            },
            Some(expected) => {
                let lost = counter.saturating_sub(expected);
                let next = next_after(expected, counter);
                Observed {
                    arrival: arrival_after(expected, counter),
                    tracker: self.observe_gap(lost).expecting(next),
                }
            }
        }
    }

    // Get interval stats and reset for next interval. An open burst ends.
    #[tactic(auto, unfolding(crate::specs::Stats::stats_of, crate::specs::Stats::mean_burst, crate::specs::Gaps::burst_finished))]
    pub fn take_interval_stats_unchecked(self) -> IntervalStats
        ensures { result ≡ stats_of self }
    {
        let ended = self.finish_burst_unchecked();
        IntervalStats {
            count: ended.burst_count,
            max: ended.max_burst_len,
            mean: mean_burst(ended.total_burst_len, ended.burst_count),
            tracker: GapTracker {
                burst_count: 0,
                max_burst_len: 0,
                total_burst_len: 0,
                ..ended
            },
        }
    }
}
