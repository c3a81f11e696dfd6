// The questions as one list, and the first that refuses.

ghost use Rattle.std.specs.Prelude.{◌≡◌};
ghost use Rattle.refusals.specs.Answers.{passed, admitted};
ghost use Rattle.refusals.specs.Questions.{first_no, asked, all_yes};

use crate::refusal::{Refusal, Refused};

// The answers to the questions of document 01, "Before any figure: the checks", in its order. A question that a call doesn't have stays true.
#[derive(Clone, Copy)]
pub struct Questions {
    // 1. The state keeps its rule.
    pub state: bool,
    // 2. Every clock reading, interval and interval bound is in range.
    pub clocks: bool,
    // 3. The frame size is in range.
    pub frame_size: bool,
    // 4. Both window buffers are as long as the state's capacity.
    pub windows: bool,
    // 5. Each delay sample is in range.
    pub delay_samples: bool,
    // 6. The output buffer is long enough.
    pub output_buffer: bool,
    // 7. The payload is long enough.
    pub payload: bool,
    // 8. A round trip, or a smoothed value for scheduling, is in range.
    pub round_trip: bool,
    // 9. The lower interval bound is at most the upper.
    pub interval_bounds: bool,
    // 10. Every counter that the call raises can hold the sum.
    pub counters: bool,
    // 11. Every value handed in beside a state is in range.
    pub values: bool,
}

impl Questions {
    // A call sets the answers to the questions that it has.
    pub fn all_yes() -> Questions
        ensures { result ≡ all_yes }
    {
        Questions {
            state: true,
            clocks: true,
            frame_size: true,
            windows: true,
            delay_samples: true,
            output_buffer: true,
            payload: true,
            round_trip: true,
            interval_bounds: true,
            counters: true,
            values: true,
        }
    }

    // The refusal: the first question that is answered no, if one is.
    #[tactic(auto, unfolding(crate::specs::Questions::first_no, crate::specs::Questions::asked, crate::specs::Answers::answered, crate::specs::Answers::numbered))]
    pub fn first_no(self) -> Result<(), Refusal>
        ensures { result ≡ passed (first_no (asked self)) }
    {
        match self {
            Self { state: false, .. } => Err(Refusal::State),
            Self { clocks: false, .. } => Err(Refusal::Clocks),
            Self {
                frame_size: false,
                ..
            } => Err(Refusal::FrameSize),
            Self { windows: false, .. } => Err(Refusal::Windows),
            Self {
                delay_samples: false,
                ..
            } => Err(Refusal::DelaySamples),
            Self {
                output_buffer: false,
                ..
            } => Err(Refusal::OutputBuffer),
            Self { payload: false, .. } => Err(Refusal::Payload),
            Self {
                round_trip: false,
                ..
            } => Err(Refusal::RoundTrip),
            Self {
                interval_bounds: false,
                ..
            } => Err(Refusal::IntervalBounds),
            Self {
                counters: false,
                ..
            } => Err(Refusal::Counters),
            Self { values: false, .. } => Err(Refusal::Values),
            _ => Ok(()),
        }
    }

    // The same of a record's call, which hands the record back beside a refusal.
    #[tactic(auto, unfolding(crate::specs::Answers::answered, crate::specs::Answers::admitted))]
    pub fn admit<S: Copy>(self, state: S) -> Result<(), Refused<S>>
        ensures { result ≡ admitted (first_no (asked self)) state }
    {
        self.first_no()
            .map_err(|refusal| Refused { refusal, state })
    }
}
