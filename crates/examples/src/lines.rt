// The lines that the program writes, and what ends it before its last line.
use codec::reader::TooShort;
use refusals::refusal::{Refusal, Refused};
use std::io::Write;
use std::{fmt, io};

// Why no line comes after this one.
#[derive(Drop)]
pub enum Stop {
    Output(io::Error),
    // A call that the example takes for granted.
    Refused(Refusal),
    // A call that makes a report by the rules, and made none.
    Unruly,
}

// An error of the output is told as it is.
impl fmt::Debug for Stop {
    fn fmt<W: fmt::Write>(&self, f: &mut fmt::Formatter<W>) -> fmt::Result {
        match self {
            Stop::Output(e) => write!(f, "{e:?}"),
            Stop::Refused(refusal) => write!(f, "refused: {refusal}"),
            Stop::Unruly => write!(f, "a call answers against the rules"),
        }
    }
}

impl From<io::Error> for Stop {
    fn from(e: io::Error) -> Stop {
        Stop::Output(e)
    }
}

impl From<Refusal> for Stop {
    fn from(refusal: Refusal) -> Stop {
        Stop::Refused(refusal)
    }
}

impl From<TooShort> for Stop {
    fn from(short: TooShort) -> Stop {
        Stop::Refused(short.into())
    }
}

impl<S: Drop> From<Refused<S>> for Stop {
    fn from(refused: Refused<S>) -> Stop {
        Stop::Refused(refused.refusal)
    }
}

pub type Shown = Result<(), Stop>;

// An error that names the question that refuses.
pub trait Refuses: Copy {
    fn refusal(self) -> Refusal;
}

impl Refuses for Refusal {
    fn refusal(self) -> Refusal {
        self
    }
}

impl Refuses for TooShort {
    fn refusal(self) -> Refusal {
        self.into()
    }
}

impl<S: Copy> Refuses for Refused<S> {
    fn refusal(self) -> Refusal {
        self.refusal
    }
}

// A writer of examples: a line for each, of its name and what came out, marked by what the rules say.
pub trait Lines: Write {
    fn heading(&mut self, text: &str) -> Shown {
        writeln!(self, "{text}")?;
        Ok(())
    }

    fn number(&mut self, name: impl fmt::Display + Drop, got: impl Into<u64>, said: u64) -> Shown {
        let got = got.into();
        let mark = if got == said { "ok   " } else { "WRONG" };
        writeln!(self, "{mark} {name}: {got}")?;
        Ok(())
    }

    // A yes or no that should be yes.
    fn holds(&mut self, name: impl fmt::Display + Drop, got: bool) -> Shown {
        self.number(name, got, 1)
    }

    // The number of the question that refuses, 0 where none does.
    fn refusal<T: Copy, E: Refuses>(
        &mut self,
        name: impl fmt::Display + Drop,
        answer: Result<T, E>,
        said: u64,
    ) -> Shown {
        let number = answer.map_or_else(|e| u8::from(e.refusal()), |_| 0);
        self.number(name, number, said)
    }

    // The same of a call that hands the record back beside a refusal: that record, or the new one of a call that is not refused, which the lines after it tell.
    fn given_back<S: Copy>(
        &mut self,
        name: impl fmt::Display + Drop,
        answer: Result<S, Refused<S>>,
        said: u64,
    ) -> Result<S, Stop> {
        self.refusal(name, answer, said)?;
        Ok(answer.unwrap_or_else(|refused| refused.state))
    }
}

impl<W: Write> Lines for W {}
