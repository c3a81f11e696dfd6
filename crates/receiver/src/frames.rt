// A frame is received: counted, and sampled.

mod counting; // frames/counting.rt: interval and cumulative counts, reordering, loss bursts and ECN
mod sampling; // frames/sampling.rt: jitter, the one-way delay trend and the timestamp echo
mod joined; // frames/joined.rt: the questions of an ordinary frame in one test

ghost use Rattle.std.specs.Prelude.{◌≡◌, true, [], ◌∷◌};
ghost use Rattle.refusals.specs.Answers.{admitted, settled};
ghost use Rattle.refusals.specs.Questions.{question, first_no};
ghost use Rattle.refusals.specs.Ranges.{clock_ok, frame_size_ok};
ghost use Rattle.algorithms.specs.Owd as owds;
ghost use Rattle.receiver.specs.State.{keeps_the_rule};
ghost use Rattle.receiver.specs.Frames.{counters_ok, frame_of, frame_times, frame_delays};

use crate::ReceiverState;
use refusals::questions::Questions;
use refusals::ranges::{clock_ok, frame_size_ok};
use refusals::refusal::Refused;

impl ReceiverState {
    // The questions of a frame. Question 5 is left out: every sample is in range.
    #[tactic(auto, unfolding(refusals::specs::Questions::first_no, refusals::specs::Questions::asked, refusals::specs::Answers::admitted))]
    fn admit_frame(
        self,
        times: usize,
        delays: usize,
        counter: u64,
        bytes: usize,
        now_ms: u64,
    ) -> Result<(), Refused<ReceiverState>>
        ensures { result ≡ admitted (first_no (
            question 1 (keeps_the_rule self)
            ∷ question 2 (clock_ok now_ms)
            ∷ question 3 (frame_size_ok bytes)
            ∷ question 4 (owds.windows_ok self.owd_trend times delays)
            ∷ question 10 (counters_ok self counter bytes)
            ∷ []
            )) self }
    {
        if self.well_within(times, delays, bytes, now_ms) {
            return Ok(());
        }
        let mut q = Questions::all_yes();
        q.state = self.keeps_rule();
        q.clocks = clock_ok(now_ms);
        q.frame_size = frame_size_ok(bytes);
        q.windows = self.owd_trend.windows_ok(times, delays);
        q.counters = self.counters_ok(counter, bytes as u64);
        q.admit(self)
    }

    // Record a received frame from this peer, and sample its timing only when `sampled`: on a link of several paths, on the active one. A frame's five numbers are
    // parameters and no struct: each half of the call takes other ones.
    #[tactic(auto, unfolding(crate::specs::Frames::frame_of, crate::specs::Frames::frame_times, crate::specs::Frames::frame_delays, crate::specs::Frames::frame_refusal, refusals::specs::Questions::first_no, refusals::specs::Answers::admitted, refusals::specs::Answers::settled), using(crate::proofs::FrameAsked::sample_in_range))]
    pub fn record_frame(
        self,
        times: &mut [u32],
        delays: &mut [i64],
        counter: u64,
        sender_timestamp_ms: u32,
        bytes: usize,
        ce_flag: bool,
        now_ms: u64,
        sampled: bool,
    ) -> Result<ReceiverState, Refused<ReceiverState>>
        ensures answer { result ≡ settled (frame_of self times.old delays.old counter sender_timestamp_ms bytes ce_flag now_ms sampled) }
        ensures times { times.new ≡ frame_times self times.old delays.old counter sender_timestamp_ms bytes now_ms sampled }
        ensures delays { delays.new ≡ frame_delays self times.old delays.old counter sender_timestamp_ms bytes now_ms sampled }
    {
        self.admit_frame(times.len(), delays.len(), counter, bytes, now_ms)?;
        let counted = self.count(counter, bytes as u32, ce_flag);
        Ok(counted.sample(times, delays, sender_timestamp_ms, now_ms, sampled))
    }

    // Record a received frame from this peer, sampling its timing.
    pub fn record_recv(
        self,
        times: &mut [u32],
        delays: &mut [i64],
        counter: u64,
        sender_timestamp_ms: u32,
        bytes: usize,
        ce_flag: bool,
        now_ms: u64,
    ) -> Result<ReceiverState, Refused<ReceiverState>>
        ensures answer { result ≡ settled (frame_of self times.old delays.old counter sender_timestamp_ms bytes ce_flag now_ms true) }
        ensures times { times.new ≡ frame_times self times.old delays.old counter sender_timestamp_ms bytes now_ms true }
        ensures delays { delays.new ≡ frame_delays self times.old delays.old counter sender_timestamp_ms bytes now_ms true }
    {
        self.record_frame(
            times,
            delays,
            counter,
            sender_timestamp_ms,
            bytes,
            ce_flag,
            now_ms,
            true,
        )
    }
}
