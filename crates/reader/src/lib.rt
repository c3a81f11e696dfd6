// `Reader`, holding the payload that it was given: thin functions over those on a slice and a place.
// A `read_*` moves the place past what it read, and one that is too short leaves it; a `decode_*` leaves it.

#![tactic(auto)]

pub mod reports; // reports.rt: the decoding of each report
pub mod reads; // reads.rt: each read, by a reader made at a position

ghost use Rattle.std.specs.Prelude.{◌≡◌, ◌-◌, length};
ghost use Rattle.codec.specs.Reading.{place_after, read_u8, read_u16, read_u32, read_u64, read_array};
ghost use Rattle.reader.specs.Held.{new_of, moved_to};

use codec::reader::TooShort;
use codec::{Place, reader};

#[derive(Clone, Copy)]
pub struct Reader<'a> {
    pub buf: &'a [u8],
    pub at: Place,
}

impl<'a> Reader<'a> {
    pub fn new(buf: &'a [u8]) -> Reader<'a>
        ensures { result ≡ new_of buf.entry }
    {
        Reader {
            buf,
            at: Place { pos: 0 },
        }
    }

    // How many bytes are left; none where the place is past the end.
    pub fn remaining(self) -> usize
        ensures { result ≡ length self.entry.buf.now - self.entry.at.pos }
    {
        reader::remaining(self.buf, self.at)
    }

    // One method for each width: the names are the commit's, and each is one call.
    pub fn read_u8(&mut self) -> Result<u8, TooShort>
        ensures { (result ≡ read_u8 self.old.buf.now self.old.at)
            × (self.new ≡ moved_to self.old (place_after self.old.buf.now self.old.at 1)) }
    {
        reader::read_u8(self.buf, &mut self.at)
    }

    pub fn read_u16_le(&mut self) -> Result<u16, TooShort>
        ensures { (result ≡ read_u16 self.old.buf.now self.old.at)
            × (self.new ≡ moved_to self.old (place_after self.old.buf.now self.old.at 2)) }
    {
        reader::read_u16_le(self.buf, &mut self.at)
    }

    pub fn read_u32_le(&mut self) -> Result<u32, TooShort>
        ensures { (result ≡ read_u32 self.old.buf.now self.old.at)
            × (self.new ≡ moved_to self.old (place_after self.old.buf.now self.old.at 4)) }
    {
        reader::read_u32_le(self.buf, &mut self.at)
    }

    pub fn read_u64_le(&mut self) -> Result<u64, TooShort>
        ensures { (result ≡ read_u64 self.old.buf.now self.old.at)
            × (self.new ≡ moved_to self.old (place_after self.old.buf.now self.old.at 8)) }
    {
        reader::read_u64_le(self.buf, &mut self.at)
    }

    pub fn read_array<const N: usize>(&mut self) -> Result<[u8; N], TooShort>
        ensures { (result ≡ read_array self.old.buf.now self.old.at N)
            × (self.new ≡ moved_to self.old (place_after self.old.buf.now self.old.at N)) }
    {
        reader::read_array(self.buf, &mut self.at)
    }
}
