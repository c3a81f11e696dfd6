// Spin bit: round trips seen from a bit that one end flips and the other copies.

ghost use Rattle.std.specs.Prelude.{◌≡◌};
ghost use Rattle.refusals.specs.Answers.{passed, settled, told};
ghost use Rattle.algorithms.specs.Spin.{keeps_the_rule, refusal_of, fresh, restart_of, is_initiator_of, tx_bit_of, since_edge, reflected, copied, observed, seen, rx_observe_of, observed_as};

use refusals::questions::Questions;
use refusals::ranges::{clock_ok, optional_clock_ok};
use refusals::refusal::{Refusal, Refused};

// Two ends in one record and no enum of them: the rules list its fields so, and a caller may hand in any of them.
#[derive(Clone, Copy)]
pub struct SpinBitState {
    pub is_initiator: bool,
    pub current_value: bool,
    // The highest counter that a responder has taken a bit from.
    pub highest_counter_for_spin: u64,
    // When an initiator last saw its own bit come back.
    pub last_edge_ms: Option<u64>,
}

// What a frame brings: the round trip that it ended, and the state after it.
#[derive(Clone, Copy)]
pub struct Observed {
    pub rtt_ms: Option<u64>,
    pub state: SpinBitState,
}

fn since_edge(last_edge_ms: Option<u64>, now_ms: u64) -> Option<u64>
    ensures { result ≡ since_edge last_edge_ms now_ms }
{
    last_edge_ms.map(|edge_ms| now_ms.saturating_sub(edge_ms))
}

impl SpinBitState {
    pub fn new(is_initiator: bool) -> SpinBitState
        ensures { result ≡ fresh is_initiator }
    {
        SpinBitState {
            is_initiator,
            current_value: false,
            highest_counter_for_spin: 0,
            last_edge_ms: None,
        }
    }

    #[tactic(auto, unfolding(crate::specs::Spin::keeps_the_rule))]
    pub fn keeps_rule(self) -> bool
        ensures { result ≡ keeps_the_rule self }
    {
        optional_clock_ok(self.last_edge_ms)
    }

    // Question 1 alone: ewma.rt says why each record has these lines.
    #[tactic(auto, unfolding(crate::specs::Spin::refusal_of, refusals::specs::Questions::first_no, refusals::specs::Questions::asked))]
    fn ask(self) -> Result<(), Refusal>
        ensures { result ≡ passed (refusal_of self) }
    {
        let mut q = Questions::all_yes();
        q.state = self.keeps_rule();
        q.first_no()
    }

    // Starts again with the same role, for a session whose counters start again.
    #[tactic(auto, unfolding(crate::specs::Spin::restart_of, crate::specs::Spin::refusal_of, refusals::specs::Questions::first_no, refusals::specs::Questions::asked, refusals::specs::Answers::admitted, refusals::specs::Answers::settled))]
    pub fn restart(self) -> Result<SpinBitState, Refused<SpinBitState>>
        ensures { result ≡ settled (restart_of self) }
    {
        let mut q = Questions::all_yes();
        q.state = self.keeps_rule();
        q.admit(self)?;
        Ok(SpinBitState::new(self.is_initiator))
    }

    #[tactic(auto, unfolding(refusals::specs::Answers::answered, refusals::specs::Answers::answer))]
    pub fn is_initiator(self) -> Result<bool, Refusal>
        ensures { result ≡ told (is_initiator_of self) }
    {
        self.ask()?;
        Ok(self.is_initiator)
    }

    // The bit to set on an outgoing frame.
    #[tactic(auto, unfolding(refusals::specs::Answers::answered, refusals::specs::Answers::answer))]
    pub fn tx_bit(self) -> Result<bool, Refusal>
        ensures { result ≡ told (tx_bit_of self) }
    {
        self.ask()?;
        Ok(self.current_value)
    }

    // An initiator's own bit comes back: a round trip ends, and the bit flips for the next.
    #[tactic(auto, unfolding(crate::specs::Spin::reflected))]
    fn reflect(self, received_bit: bool, now_ms: u64) -> Observed
        ensures { result ≡ seen (reflected self received_bit now_ms) }
    {
        if received_bit == self.current_value {
            Observed {
                rtt_ms: since_edge(self.last_edge_ms, now_ms),
                state: SpinBitState {
                    current_value: !self.current_value,
                    last_edge_ms: Some(now_ms),
                    ..self
                },
            }
        } else {
            Observed {
                rtt_ms: None,
                state: self,
            }
        }
    }

    // A responder copies the bit of a frame that no later one has overtaken.
    #[tactic(auto, unfolding(crate::specs::Spin::copied))]
    fn copy(self, received_bit: bool, counter: u64) -> SpinBitState
        ensures { result ≡ (copied self received_bit counter).state }
    {
        if self.highest_counter_for_spin < counter {
            SpinBitState {
                highest_counter_for_spin: counter,
                current_value: received_bit,
                ..self
            }
        } else {
            self
        }
    }

    // The frame alone, for a caller that has asked its questions.
    #[tactic(auto, unfolding(crate::specs::Spin::observed, crate::specs::Spin::copied))]
    pub fn rx_observe_unchecked(self, received_bit: bool, counter: u64, now_ms: u64) -> Observed
        ensures { result ≡ seen (observed self received_bit counter now_ms) }
    {
        if self.is_initiator {
            self.reflect(received_bit, now_ms)
        } else {
            Observed {
                rtt_ms: None,
                state: self.copy(received_bit, counter),
            }
        }
    }

    // A received frame's spin bit. The round trip, in ms, is an initiator's alone.
    #[tactic(auto, unfolding(crate::specs::Spin::rx_observe_of, crate::specs::Spin::observe_refusal, refusals::specs::Questions::first_no, refusals::specs::Questions::asked, refusals::specs::Answers::admitted, refusals::specs::Answers::settled_with), using(crate::proofs::SpinKeepsRule::observe_refusal_lem))]
    pub fn rx_observe(
        self,
        received_bit: bool,
        counter: u64,
        now_ms: u64,
    ) -> Result<(SpinBitState, Option<u64>), Refused<SpinBitState>>
        ensures { result ≡ observed_as (rx_observe_of self received_bit counter now_ms) }
    {
        let mut q = Questions::all_yes();
        q.state = self.keeps_rule();
        q.clocks = clock_ok(now_ms);
        q.admit(self)?;
        let seen = self.rx_observe_unchecked(received_bit, counter, now_ms);
        Ok((seen.state, seen.rtt_ms))
    }
}
