// Joined tests, which only speed a frame up: they answer yes to all the questions of an ordinary frame at once, since the compiler joins numbers that are bounded by one
// power of 2 and compares once. False proves nothing: then the questions are put one by one.

ghost use Rattle.std.specs.Prelude.{◌≡◌, true, [], ◌∷◌, ℕ};
ghost use Rattle.refusals.specs.Questions.{question, first_no};
ghost use Rattle.refusals.specs.Ranges.{clock_ok, optional_clock_ok, frame_size_ok, counter_ok};
ghost use Rattle.algorithms.specs.Owd as owds;
ghost use Rattle.gaps.specs.Gaps as gaps;
ghost use Rattle.samples.specs.Delay.{reference_ok};
ghost use Rattle.receiver.specs.State.{grace_ok, reorders_ok, keeps_the_rule};
ghost use Rattle.receiver.specs.Frames.{counters_ok};

use crate::ReceiverState;
use gaps::MAX_BURST_LEN;
use refusals::ranges::frame_size_ok;
use samples::delay::OwdBase;

// 139 years: a clock below it is near. No running clock has come that far.
const NEAR_CLOCK_MS: u64 = 1 << 42;

// Half of what a counter holds: a count below it is low.
const LOW_COUNT: u64 = 1 << 63;

// The clock of a reference that may be missing, in range where the reference is.
fn reference_ms(owd_ref: Option<OwdBase>) -> u64
    ensures { clock_ok result ≡ reference_ok owd_ref }
{
    owd_ref.map_or(0, |base| base.recv_ms)
}

impl ReceiverState {
    // No clock is far.
    fn clocks_near(self, now_ms: u64) -> bool
        ensures { result ≡ true → (optional_clock_ok self.last_recv_ms ≡ true)
            × (optional_clock_ok self.last_report_ms ≡ true)
            × (clock_ok self.report_interval_ms ≡ true)
            × (grace_ok self.rekey_jitter_grace_until_ms ≡ true)
            × (reference_ok self.owd_ref ≡ true)
            × (clock_ok now_ms ≡ true) }
    {
        (self.last_recv_ms.unwrap_or(0) < NEAR_CLOCK_MS)
            & (self.last_report_ms.unwrap_or(0) < NEAR_CLOCK_MS)
            & (self.report_interval_ms < NEAR_CLOCK_MS)
            & (self.rekey_jitter_grace_until_ms.unwrap_or(0) < NEAR_CLOCK_MS)
            & (reference_ms(self.owd_ref) < NEAR_CLOCK_MS)
            & (now_ms < NEAR_CLOCK_MS)
    }

    // The window keeps its rule, and the buffers are as long as it.
    #[tactic(auto, unfolding(algorithms::specs::Owd::keeps_the_rule))]
    fn window_lent(self, times: usize, delays: usize) -> bool
        ensures { result ≡ true → (owds.keeps_the_rule self.owd_trend ≡ true) × (owds.windows_ok self.owd_trend times delays ≡ true) }
    {
        (self.owd_trend.capacity == times)
            & (times == delays)
            & (limits::MIN_OWD_WINDOW_SIZE <= times)
            & (times <= limits::MAX_OWD_WINDOW_SIZE)
            & (self.owd_trend.count <= times)
            & (self.owd_trend.first < times)
    }

    // No burst is under way, and no count is near its end.
    fn counts_low(self, bytes: usize) -> bool
        ensures { result ≡ true → (gaps.keeps_the_rule self.gap_tracker ≡ true)
            × (reorders_ok self ≡ true)
            × (frame_size_ok bytes ≡ true)
            × (counter_ok 64 self.cumulative_packets_recv 1 ≡ true)
            × (counter_ok 64 self.cumulative_bytes_recv bytes ≡ true)
            × (counter_ok 32 self.gap_tracker.burst_count 1 ≡ true) }
    {
        let most = MAX_BURST_LEN * u64::from(self.gap_tracker.burst_count);
        !self.gap_tracker.in_burst
            & (self.gap_tracker.current_burst_len == 0)
            & (self.gap_tracker.total_burst_len <= most)
            & (self.gap_tracker.burst_count < u32::MAX)
            & (self.cumulative_reorder_count <= self.cumulative_packets_recv)
            & (self.cumulative_packets_recv < LOW_COUNT)
            & (self.cumulative_bytes_recv < LOW_COUNT)
            & frame_size_ok(bytes)
    }

    // Every question of a frame is answered yes; question 5, of its sample, always is.
    pub(crate) fn well_within(self, times: usize, delays: usize, bytes: usize, now_ms: u64) -> bool
        ensures { result ≡ true → (counter : ℕ) → first_no (
            question 1 (keeps_the_rule self)
            ∷ question 2 (clock_ok now_ms)
            ∷ question 3 (frame_size_ok bytes)
            ∷ question 4 (owds.windows_ok self.owd_trend times delays)
            ∷ question 10 (counters_ok self counter bytes)
            ∷ []
            ) ≡ 0 }
    {
        self.window_lent(times, delays)
            & self.counts_low(bytes)
            & self.jitter.keeps_rule()
            & self.clocks_near(now_ms)
    }
}
