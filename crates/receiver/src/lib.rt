// receiver.rs: what an end keeps of the frames that come from a peer, and the reports that it makes of them. Times come in as numbers.

#![tactic(auto)]

pub mod frames; // frames.rt: a frame is received
pub mod reports; // reports.rt: a report is built
pub mod pacing; // pacing.rt: the report interval, and when a report is due

ghost use Rattle.std.specs.Prelude.{◌≡◌};
ghost use Rattle.refusals.specs.Answers.{settled, passed, told};
ghost use Rattle.receiver.specs.State.{grace_ok, keeps_the_rule, refusal_of, started_at, with_window, fresh, new_of, rekeyed, rekey_of, packets_of, bytes_of, highest_of, jitter_of, interval_of, last_recv_of, ecn_of, lateness_of};

use algorithms::jitter::JitterEstimator;
use algorithms::owd::OwdTrendDetector;
use gaps::GapTracker;
use pace::cold_start_refusal;
use refusals::questions::Questions;
use refusals::ranges::{MAX_CLOCK_MS, clock_ok, optional_clock_ok};
use refusals::refusal::{Refusal, Refused};
use samples::delay::{OwdBase, reference_ok};

// Grace after a rekey before jitter and delay are sampled again: frames of the old session may still come for 10 s, and 5 s margin.
pub const REKEY_JITTER_GRACE_MS: u64 = 15_000;

// The greatest deadline of a grace.
const MAX_GRACE_MS: u64 = MAX_CLOCK_MS + REKEY_JITTER_GRACE_MS;

// What an end keeps of the frames that come from one peer.
#[derive(Clone, Copy)]
pub struct ReceiverState {
    // --- Cumulative (lifetime) ---
    pub cumulative_packets_recv: u64,
    pub cumulative_bytes_recv: u64,
    pub cumulative_reorder_count: u64,
    // Highest counter value ever received.
    pub highest_counter: u64,
    // --- Current interval ---
    pub interval_packets_recv: u32,
    pub interval_bytes_recv: u32,
    // --- Jitter ---
    pub jitter: JitterEstimator,
    // --- OWD trend ---
    pub owd_trend: OwdTrendDetector,
    // The frame that every OWD sample is measured from.
    pub owd_ref: Option<OwdBase>,
    // --- Loss tracking ---
    pub gap_tracker: GapTracker,
    // --- ECN ---
    pub ecn_ce_count: u32,
    // --- Timestamp echo ---
    // Sender timestamp of the most recent sampled frame, and when it came.
    pub last_sender_timestamp: u32,
    pub last_recv_ms: Option<u64>,
    // --- Rekey grace ---
    // Until then jitter and OWD are not sampled.
    pub rekey_jitter_grace_until_ms: Option<u64>,
    // --- Report timing ---
    pub last_report_ms: Option<u64>,
    pub report_interval_ms: u64,
    // Whether any frames have been received since the last report. A flag and no Option: the interval's numbers are handed back where it is off too.
    pub interval_has_data: bool,
    // --- Cold-start tracking ---
    // Number of SRTT-based interval updates received.
    pub srtt_sample_count: u32,
    // --- Lateness ---
    // How far behind, at most, a frame has come since the last report or rekey: expected minus counter.
    pub interval_max_lateness: u64,
}

// The rule of a grace deadline.
fn grace_ok(deadline_ms: Option<u64>) -> bool
    ensures { result ≡ grace_ok deadline_ms }
{
    deadline_ms.is_none_or(|ms| ms <= MAX_GRACE_MS)
}

impl ReceiverState {
    // Nothing received yet, with a window and a first report interval.
    fn started(owd_window_size: usize, report_interval_ms: u64) -> ReceiverState
        ensures { result ≡ started_at owd_window_size report_interval_ms }
    {
        ReceiverState {
            cumulative_packets_recv: 0,
            cumulative_bytes_recv: 0,
            cumulative_reorder_count: 0,
            highest_counter: 0,
            interval_packets_recv: 0,
            interval_bytes_recv: 0,
            jitter: JitterEstimator::new(),
            owd_trend: OwdTrendDetector::new(owd_window_size),
            owd_ref: None,
            gap_tracker: GapTracker::new(),
            ecn_ce_count: 0,
            last_sender_timestamp: 0,
            last_recv_ms: None,
            rekey_jitter_grace_until_ms: None,
            last_report_ms: None,
            report_interval_ms,
            interval_has_data: false,
            srtt_sample_count: 0,
            interval_max_lateness: 0,
        }
    }

    pub fn new(owd_window_size: usize) -> ReceiverState
        ensures { result ≡ with_window owd_window_size }
    {
        ReceiverState::started(owd_window_size, limits::DEFAULT_COLD_START_INTERVAL_MS)
    }

    // With a cold-start interval of the caller's.
    #[tactic(auto, unfolding(crate::specs::State::new_of, refusals::specs::Answers::settled, refusals::specs::Answers::answered))]
    pub fn new_with_cold_start(
        owd_window_size: usize,
        cold_start_ms: u64,
    ) -> Result<ReceiverState, Refused<ReceiverState>>
        ensures { result ≡ settled (new_of owd_window_size cold_start_ms) }
    {
        cold_start_refusal(cold_start_ms).map_err(|refusal| Refused {
            refusal,
            state: ReceiverState::default(),
        })?;
        Ok(ReceiverState::started(owd_window_size, cold_start_ms))
    }

    #[tactic(auto, unfolding(crate::specs::State::keeps_the_rule))]
    pub fn keeps_rule(self) -> bool
        ensures { result ≡ keeps_the_rule self }
    {
        optional_clock_ok(self.last_recv_ms)
            & optional_clock_ok(self.last_report_ms)
            & clock_ok(self.report_interval_ms)
            & grace_ok(self.rekey_jitter_grace_until_ms)
            & self.jitter.keeps_rule()
            & self.owd_trend.keeps_rule()
            & reference_ok(self.owd_ref)
            & self.gap_tracker.keeps_rule()
            & (self.cumulative_reorder_count <= self.cumulative_packets_recv)
    }

    // Question 1 alone: ewma.rt says why each record has these lines.
    #[tactic(auto, unfolding(crate::specs::State::refusal_of, refusals::specs::Questions::first_no, refusals::specs::Questions::asked))]
    fn ask(self) -> Result<(), Refusal>
        ensures { result ≡ passed (refusal_of self) }
    {
        let mut q = Questions::all_yes();
        q.state = self.keeps_rule();
        q.first_no()
    }

    // The state alone after a rekey, for a caller that has asked its questions. Lifetime counts and report timing stay.
    #[tactic(auto, unfolding(crate::specs::State::rekeyed))]
    fn rekeyed(self, deadline_ms: u64) -> ReceiverState
        ensures { result ≡ rekeyed self deadline_ms }
    {
        ReceiverState {
            cumulative_reorder_count: 0,
            highest_counter: 0,
            interval_packets_recv: 0,
            interval_bytes_recv: 0,
            jitter: JitterEstimator::new(),
            owd_trend: self.owd_trend.clear_unchecked(),
            owd_ref: None,
            gap_tracker: GapTracker::new(),
            ecn_ce_count: 0,
            last_sender_timestamp: 0,
            last_recv_ms: None,
            rekey_jitter_grace_until_ms: Some(deadline_ms),
            interval_has_data: false,
            interval_max_lateness: 0,
            ..self
        }
    }

    // Reset counter-dependent state for a rekey: the new session starts with counter 0 and reset timestamps.
    #[tactic(auto, unfolding(crate::specs::State::rekey_of, crate::specs::State::clock_refusal, refusals::specs::Questions::first_no, refusals::specs::Questions::asked, refusals::specs::Answers::admitted, refusals::specs::Answers::settled))]
    pub fn reset_for_rekey(self, now_ms: u64) -> Result<ReceiverState, Refused<ReceiverState>>
        ensures { result ≡ settled (rekey_of self now_ms) }
    {
        let mut q = Questions::all_yes();
        q.state = self.keeps_rule();
        q.clocks = clock_ok(now_ms);
        q.admit(self)?;
        Ok(self.rekeyed(now_ms + REKEY_JITTER_GRACE_MS))
    }

    // --- Accessors ---

    #[tactic(auto, unfolding(refusals::specs::Answers::answered, refusals::specs::Answers::answer))]
    pub fn cumulative_packets_recv(self) -> Result<u64, Refusal>
        ensures { result ≡ told (packets_of self) }
    {
        self.ask()?;
        Ok(self.cumulative_packets_recv)
    }

    #[tactic(auto, unfolding(refusals::specs::Answers::answered, refusals::specs::Answers::answer))]
    pub fn cumulative_bytes_recv(self) -> Result<u64, Refusal>
        ensures { result ≡ told (bytes_of self) }
    {
        self.ask()?;
        Ok(self.cumulative_bytes_recv)
    }

    #[tactic(auto, unfolding(refusals::specs::Answers::answered, refusals::specs::Answers::answer))]
    pub fn highest_counter(self) -> Result<u64, Refusal>
        ensures { result ≡ told (highest_of self) }
    {
        self.ask()?;
        Ok(self.highest_counter)
    }

    #[tactic(auto, unfolding(refusals::specs::Answers::answered, refusals::specs::Answers::answer, algorithms::specs::Jitter::jitter_us_of, algorithms::specs::Jitter::refusal_of, crate::specs::State::refusal_of, crate::specs::State::keeps_the_rule, refusals::specs::Questions::first_no))]
    pub fn jitter_us(self) -> Result<u32, Refusal>
        ensures { result ≡ told (jitter_of self) }
    {
        self.ask()?;
        self.jitter.jitter_us()
    }

    #[tactic(auto, unfolding(refusals::specs::Answers::answered, refusals::specs::Answers::answer))]
    pub fn report_interval_ms(self) -> Result<u64, Refusal>
        ensures { result ≡ told (interval_of self) }
    {
        self.ask()?;
        Ok(self.report_interval_ms)
    }

    // When the most recent sampled frame came, if one did.
    #[tactic(auto, unfolding(refusals::specs::Answers::answered, refusals::specs::Answers::answer))]
    pub fn last_recv_ms(self) -> Result<Option<u64>, Refusal>
        ensures { result ≡ told (last_recv_of self) }
    {
        self.ask()?;
        Ok(self.last_recv_ms)
    }

    #[tactic(auto, unfolding(refusals::specs::Answers::answered, refusals::specs::Answers::answer))]
    pub fn ecn_ce_count(self) -> Result<u32, Refusal>
        ensures { result ≡ told (ecn_of self) }
    {
        self.ask()?;
        Ok(self.ecn_ce_count)
    }

    // How far behind, at most, a frame of this interval has come.
    #[tactic(auto, unfolding(refusals::specs::Answers::answered, refusals::specs::Answers::answer))]
    pub fn interval_max_lateness(self) -> Result<u64, Refusal>
        ensures { result ≡ told (lateness_of self) }
    {
        self.ask()?;
        Ok(self.interval_max_lateness)
    }
}

impl Default for ReceiverState {
    ghost is_default = { λ x. x ≡ fresh };

    fn default() -> ReceiverState {
        ReceiverState::new(limits::DEFAULT_OWD_WINDOW_SIZE)
    }
}
