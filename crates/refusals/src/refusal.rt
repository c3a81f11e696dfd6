// The refusal of a call, by the question that is answered no.

ghost use Rattle.std.specs.Prelude.{◌≡◌, Ok, Err, Some};
ghost use Rattle.refusals.specs.Answers.{number, Decodes};
ghost use Rattle.refusals.specs.Texts.{refusal_text, no_question_text};

use std::error::Error;
use std::fmt;

// The question that refuses, with its number: document 01, "Before any figure: the checks".
#[derive(Clone, Copy, Debug, PartialEq, Eq, Hash)]
pub enum Refusal {
    State = 1,
    Clocks = 2,
    FrameSize = 3,
    Windows = 4,
    DelaySamples = 5,
    OutputBuffer = 6,
    Payload = 7,
    RoundTrip = 8,
    IntervalBounds = 9,
    Counters = 10,
    Values = 11,
}

impl From<Refusal> for u8 {
    ghost from_gives = { λ refusal n. n ≡ number refusal };

    fn from(refusal: Refusal) -> u8 {
        refusal as u8
    }
}

// "A refusal returns its number and the state as given": the error of a call that is handed a record by value. A constructor, given none, hands back the default one.
#[derive(Clone, Copy)]
pub struct Refused<S> {
    pub state: S,
    pub refusal: Refusal,
}

// A number that is no question's.
#[derive(Clone, Copy, Debug, PartialEq, Eq, Hash)]
pub struct NoQuestion(pub u8);

impl TryFrom<u8> for Refusal {
    type Error = NoQuestion;

    ghost try_from_gives = { Decodes };

    fn try_from(number: u8) -> Result<Self, NoQuestion> {
        match number {
            1 => Ok(Refusal::State),
            2 => Ok(Refusal::Clocks),
            3 => Ok(Refusal::FrameSize),
            4 => Ok(Refusal::Windows),
            5 => Ok(Refusal::DelaySamples),
            6 => Ok(Refusal::OutputBuffer),
            7 => Ok(Refusal::Payload),
            8 => Ok(Refusal::RoundTrip),
            9 => Ok(Refusal::IntervalBounds),
            10 => Ok(Refusal::Counters),
            11 => Ok(Refusal::Values),
            _ => Err(NoQuestion(number)),
        }
    }
}

// By hand: the kit's `thiserror` would be one crate more, for the same lines.
impl fmt::Display for Refusal {
    ghost output = { λ refusal. Some (refusal_text refusal) };

    fn fmt<W: fmt::Write>(&self, f: &mut fmt::Formatter<W>) -> fmt::Result {
        f.write_str(match self {
            Refusal::State => "the state does not keep its rule",
            Refusal::Clocks => "a clock reading, interval or interval bound is out of range",
            Refusal::FrameSize => "the frame size is out of range",
            Refusal::Windows => "a window buffer is not as long as the capacity",
            Refusal::DelaySamples => "a delay sample is out of range",
            Refusal::OutputBuffer => "the output buffer is too short",
            Refusal::Payload => "the payload is too short",
            Refusal::RoundTrip => "a round trip is out of range",
            Refusal::IntervalBounds => "the lower interval bound is above the upper",
            Refusal::Counters => "a counter can't hold the sum",
            Refusal::Values => "a value handed in beside a state is out of range",
        })
    }
}

impl Error for Refusal {}

impl fmt::Display for NoQuestion {
    ghost output = { λ e. Some (no_question_text e) };

    fn fmt<W: fmt::Write>(&self, f: &mut fmt::Formatter<W>) -> fmt::Result {
        write!(f, "no question has the number {}", self.0)
    }
}

impl Error for NoQuestion {}
