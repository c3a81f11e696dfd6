// A frame is sent.

ghost use Rattle.std.specs.Prelude.{◌≡◌, false, [], ◌∷◌};
ghost use Rattle.refusals.specs.Answers.{admitted, settled};
ghost use Rattle.refusals.specs.Questions.{question, first_no};
ghost use Rattle.refusals.specs.Ranges.{frame_size_ok};
ghost use Rattle.sender.specs.State.{keeps_the_rule};
ghost use Rattle.sender.specs.Sent.{opened, sent_refusal, sent_of};

use crate::SenderState;
use refusals::questions::Questions;
use refusals::ranges::{counter_u64_ok, frame_size_ok};
use refusals::refusal::Refused;

impl SenderState {
    // The first frame of an interval is its start.
    #[tactic(auto, unfolding(crate::specs::Sent::opened))]
    fn open(self, counter: u64, timestamp: u32) -> SenderState
        ensures { result ≡ opened self counter timestamp }
    {
        if self.interval_has_data {
            self
        } else {
            SenderState {
                interval_start_counter: counter,
                interval_start_timestamp: timestamp,
                interval_has_data: true,
                ..self
            }
        }
    }

    // The first question that refuses the frame, where one does: if it is neither the rule nor the size, it is the counters.
    #[tactic(auto, unfolding(refusals::specs::Questions::first_no, refusals::specs::Questions::asked))]
    fn sent_no(self, bytes: usize) -> Result<(), Refused<SenderState>>
        ensures { result ≡ admitted (first_no (question 1 (keeps_the_rule self) ∷ question 3 (frame_size_ok bytes) ∷ question 10 false ∷ [])) self }
    {
        let mut q = Questions::all_yes();
        q.state = self.keeps_rule();
        q.frame_size = frame_size_ok(bytes);
        q.counters = false;
        q.admit(self)
    }

    // The questions of a frame. The tests stand in the order in which the compiler makes each a compare and a branch: the bytes' sum is then its own test.
    #[tactic(auto, unfolding(crate::specs::Sent::sent_refusal, refusals::specs::Questions::first_no, refusals::specs::Answers::admitted))]
    fn admit_sent(self, bytes: usize) -> Result<(), Refused<SenderState>>
        ensures { result ≡ admitted (sent_refusal self bytes) self }
    {
        if !self.keeps_rule() {
            return self.sent_no(bytes);
        }
        if !counter_u64_ok(self.cumulative_bytes_sent, bytes as u64) {
            return self.sent_no(bytes);
        }
        if !frame_size_ok(bytes) {
            return self.sent_no(bytes);
        }
        if !counter_u64_ok(self.cumulative_packets_sent, 1) {
            return self.sent_no(bytes);
        }
        Ok(())
    }

    // Records a frame sent: its counter, its session-relative timestamp in ms and its size.
    #[tactic(auto, unfolding(crate::specs::Sent::sent_of, crate::specs::Sent::sent, crate::specs::Sent::opened, crate::specs::Sent::sent_refusal, refusals::specs::Questions::first_no, refusals::specs::Answers::settled, refusals::specs::Answers::admitted))]
    pub fn record_sent(
        self,
        counter: u64,
        timestamp: u32,
        bytes: usize,
    ) -> Result<SenderState, Refused<SenderState>>
        ensures { result ≡ settled (sent_of self counter timestamp bytes) }
    {
        self.admit_sent(bytes)?;
        let opened = self.open(counter, timestamp);
        Ok(SenderState {
            last_counter: counter,
            last_timestamp: timestamp,
            interval_bytes_sent: opened.interval_bytes_sent.saturating_add(bytes as u32),
            cumulative_packets_sent: opened.cumulative_packets_sent + 1,
            cumulative_bytes_sent: opened.cumulative_bytes_sent + bytes as u64,
            ..opened
        })
    }
}
