// sender.rs: what an end keeps of the frames that it sends to a peer, and when it reports them. Times come in as numbers.

#![tactic(auto)]

pub mod sent; // sent.rt: a frame is sent
pub mod reports; // reports.rt: a report is built
pub mod backoff; // backoff.rt: failures to send a report
pub mod pacing; // pacing.rt: the report interval, and when a report is due

ghost use Rattle.std.specs.Prelude.{◌≡◌};
ghost use Rattle.refusals.specs.Answers.{admitted, passed, settled, told};
ghost use Rattle.sender.specs.State.{keeps_the_rule, refusal_of, started_at, fresh, new_of, packets_of, bytes_of, interval_of, failures_of};

use pace::cold_start_refusal;
use refusals::questions::Questions;
use refusals::ranges::clock_ok;
use refusals::refusal::{Refusal, Refused};

// What an end keeps of the frames that it sends to one peer. Its fields are the C interface's: so there is a flag beside the last report's time, and one
// beside the interval, not an Option.
#[repr(C)]
#[derive(Clone, Copy)]
pub struct SenderState {
    // --- Cumulative (lifetime) ---
    pub cumulative_packets_sent: u64,
    pub cumulative_bytes_sent: u64,
    // --- Current interval ---
    pub interval_start_counter: u64,
    pub interval_start_timestamp: u32,
    pub interval_bytes_sent: u32,
    // Counter of the most recently sent frame.
    pub last_counter: u64,
    // Timestamp of the most recently sent frame.
    pub last_timestamp: u32,
    // Whether any frames have been sent in the current interval.
    pub interval_has_data: bool,
    // --- Report timing ---
    // Whether a report has been built, and when: any number where none has.
    pub has_last_report: bool,
    pub last_report_ms: u64,
    pub report_interval_ms: u64,
    // --- Send failure backoff ---
    pub consecutive_send_failures: u32,
    // --- Cold-start tracking ---
    // Number of SRTT-based interval updates received.
    pub srtt_sample_count: u32,
}

impl SenderState {
    pub fn new() -> SenderState
        ensures { result ≡ fresh }
    {
        SenderState::started(limits::DEFAULT_COLD_START_INTERVAL_MS)
    }

    // Nothing sent yet, with a first report interval.
    fn started(report_interval_ms: u64) -> SenderState
        ensures { result ≡ started_at report_interval_ms }
    {
        SenderState {
            cumulative_packets_sent: 0,
            cumulative_bytes_sent: 0,
            interval_start_counter: 0,
            interval_start_timestamp: 0,
            interval_bytes_sent: 0,
            last_counter: 0,
            last_timestamp: 0,
            interval_has_data: false,
            has_last_report: false,
            last_report_ms: 0,
            report_interval_ms,
            consecutive_send_failures: 0,
            srtt_sample_count: 0,
        }
    }

    // With a cold-start interval of the caller's.
    #[tactic(auto, unfolding(crate::specs::State::new_of, refusals::specs::Answers::settled, refusals::specs::Answers::answered))]
    pub fn new_with_cold_start(cold_start_ms: u64) -> Result<SenderState, Refused<SenderState>>
        ensures { result ≡ settled (new_of cold_start_ms) }
    {
        cold_start_refusal(cold_start_ms).map_err(|refusal| Refused {
            refusal,
            state: SenderState::new(),
        })?;
        Ok(SenderState::started(cold_start_ms))
    }

    #[tactic(auto, unfolding(crate::specs::State::keeps_the_rule))]
    pub fn keeps_rule(self) -> bool
        ensures { result ≡ keeps_the_rule self }
    {
        let last_report = !self.has_last_report | clock_ok(self.last_report_ms);
        last_report & clock_ok(self.report_interval_ms)
    }

    // Question 1 alone: ewma.rt says why each record has these lines.
    #[tactic(auto, unfolding(crate::specs::State::refusal_of, refusals::specs::Questions::first_no, refusals::specs::Questions::asked))]
    fn ask(self) -> Result<(), Refusal>
        ensures { result ≡ passed (refusal_of self) }
    {
        let mut q = Questions::all_yes();
        q.state = self.keeps_rule();
        q.first_no()
    }

    // The same of a call that moves the record.
    #[tactic(auto, unfolding(crate::specs::State::refusal_of, refusals::specs::Questions::first_no, refusals::specs::Questions::asked))]
    fn admit(self) -> Result<(), Refused<SenderState>>
        ensures { result ≡ admitted (refusal_of self) self }
    {
        let mut q = Questions::all_yes();
        q.state = self.keeps_rule();
        q.admit(self)
    }

    // --- Accessors ---

    #[tactic(auto, unfolding(refusals::specs::Answers::answered, refusals::specs::Answers::answer))]
    pub fn cumulative_packets_sent(self) -> Result<u64, Refusal>
        ensures { result ≡ told (packets_of self) }
    {
        self.ask()?;
        Ok(self.cumulative_packets_sent)
    }

    #[tactic(auto, unfolding(refusals::specs::Answers::answered, refusals::specs::Answers::answer))]
    pub fn cumulative_bytes_sent(self) -> Result<u64, Refusal>
        ensures { result ≡ told (bytes_of self) }
    {
        self.ask()?;
        Ok(self.cumulative_bytes_sent)
    }

    #[tactic(auto, unfolding(refusals::specs::Answers::answered, refusals::specs::Answers::answer))]
    pub fn report_interval_ms(self) -> Result<u64, Refusal>
        ensures { result ≡ told (interval_of self) }
    {
        self.ask()?;
        Ok(self.report_interval_ms)
    }

    #[tactic(auto, unfolding(refusals::specs::Answers::answered, refusals::specs::Answers::answer))]
    pub fn consecutive_send_failures(self) -> Result<u32, Refusal>
        ensures { result ≡ told (failures_of self) }
    {
        self.ask()?;
        Ok(self.consecutive_send_failures)
    }
}

impl Default for SenderState {
    ghost is_default = { λ x. x ≡ fresh };

    fn default() -> SenderState {
        SenderState::new()
    }
}
