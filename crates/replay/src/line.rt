// A line of the script, byte by byte, into a table of its numbers.

// The most numbers of a line.
pub const MOST: usize = 8500;

// How far a line was read.
#[derive(Drop)]
pub struct Line {
    // the line's number, from 1
    pub number: u64,
    // a table and a count, and no Vec, here and in reply.rt and text.rt: the program takes no memory while it runs, so it has no refusal for want of it
    numbers: [u64; MOST],
    count: usize,
    // the number being read, where it has a digit
    value: Option<u64>,
    malformed: bool,
}

impl Line {
    pub fn new() -> Line {
        Line {
            number: 1,
            numbers: [0; MOST],
            count: 0,
            value: None,
            malformed: false,
        }
    }

    pub fn next(&mut self) {
        self.number = self.number.wrapping_add(1);
        self.count = 0;
        self.value = None;
        self.malformed = false;
    }

    // Whether the line has a byte.
    pub fn begun(&self) -> bool {
        self.malformed || self.value.is_some() || self.count > 0
    }

    // A byte that is no line feed.
    pub fn byte(&mut self, b: u8) {
        let read = match b {
            b' ' => self.end_number(),
            b'0'..=b'9' => self.digit(b - b'0'),
            _ => None,
        };
        self.malformed |= read.is_none();
    }

    fn digit(&mut self, d: u8) -> Option<()> {
        let tens = self.value.unwrap_or(0).checked_mul(10)?;
        self.value = Some(tens.checked_add(u64::from(d))?);
        Some(())
    }

    // The number ends here, and goes into the table.
    fn end_number(&mut self) -> Option<()> {
        let slot = self.numbers.get_mut(self.count)?;
        *slot = self.value?;
        self.value = None;
        self.count += 1;
        Some(())
    }

    // The numbers of a line that ends here, if it is a line of numbers.
    pub fn numbers(&mut self) -> Option<&[u64]> {
        self.end_number()?;
        if self.malformed {
            return None;
        }
        self.numbers.get(..self.count)
    }
}
