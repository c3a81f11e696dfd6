// `Reader`: its methods as functions on the payload and the place. A read moves the place past what it read. One that would pass the end leaves it, and
// answers how many bytes it needed, counted from the start, and how many were given.
ghost use Rattle.std.specs.Prelude.{◌≡◌, ◌-◌, length, drop, Some};
ghost use Rattle.codec.specs.Reading.{needed_for, short_text, length_answer, place_after, read_u8, read_u16, read_u32, read_u64, read_bytes, read_array};
ghost use Rattle.refusals.specs.declared.refusal.Refusal.TheVariants.{Payload};

use crate::Place;
use crate::fields::{array_in, left_at};
use refusals::refusal::Refusal;
use std::error::Error;
use std::fmt;

// The payload lacks what a read asks for: the Rust's `MessageTooShort`.
#[derive(Clone, Copy, Debug, PartialEq, Eq)]
pub struct TooShort {
    pub needed: usize,
    pub given: usize,
}

// Where bytes stand: they are `&payload[start..end]`. It is `Copy`, and the library's range is not.
#[derive(Clone, Copy, Debug, PartialEq, Eq)]
pub struct Span {
    pub start: usize,
    pub end: usize,
}

// By hand, as a refusal's.
impl fmt::Display for TooShort {
    ghost output = { λ short. Some (short_text short) };

    fn fmt<W: fmt::Write>(&self, f: &mut fmt::Formatter<W>) -> fmt::Result {
        write!(
            f,
            "the payload is too short: {} bytes needed, {} given",
            self.needed, self.given
        )
    }
}

impl Error for TooShort {}

impl From<TooShort> for Refusal {
    ghost from_gives = { λ short refusal. refusal ≡ Payload };

    fn from(_short: TooShort) -> Refusal {
        Refusal::Payload
    }
}

// How many bytes are left; none where the place is past the end.
pub fn remaining(s: &[u8], at: Place) -> usize
    ensures { result ≡ length s.now - at.pos }
{
    left_at(s, at.pos)
}

// What is left; the empty part where the place is past the end.
pub fn rest(s: &[u8], at: Place) -> &[u8]
    ensures { result.now ≡ drop at.pos s.now }
{
    &s[at.pos.min(s.len())..]
}

// The count of bytes from the start that n more make, the greatest usize where it would wrap.
#[tactic(auto, unfolding(crate::specs::Reading::needed_for))]
pub fn needed_for(pos: usize, n: usize) -> usize
    ensures { result ≡ needed_for pos n }
{
    pos.saturating_add(n)
}

// Whether n more bytes are there.
#[tactic(auto, unfolding(crate::specs::Reading::length_answer, crate::specs::Reading::needed_for))]
pub fn require(s: &[u8], at: Place, n: usize) -> Result<(), TooShort>
    ensures { result ≡ length_answer s.now at.pos n }
{
    let needed = needed_for(at.pos, n);
    let given = s.len();
    if given < needed {
        return Err(TooShort { needed, given });
    }
    Ok(())
}

// Passes over n bytes.
#[tactic(auto, unfolding(crate::specs::Reading::length_answer, crate::specs::Reading::place_after))]
pub fn advance(s: &[u8], at: &mut Place, n: usize) -> Result<(), TooShort>
    ensures answer { result ≡ length_answer s.now at.old.pos n }
    ensures place { at.new ≡ place_after s.now at.old n }
{
    require(s, *at, n)?;
    at.pos += n;
    Ok(())
}

// Where the n bytes stand.
#[tactic(auto, unfolding(crate::specs::Reading::read_bytes, crate::specs::Reading::read_as, crate::specs::Reading::length_answer, crate::specs::Reading::place_after))]
pub fn read_bytes(s: &[u8], at: &mut Place, n: usize) -> Result<Span, TooShort>
    ensures answer { result ≡ read_bytes s.now at.old n }
    ensures place { at.new ≡ place_after s.now at.old n }
{
    let start = at.pos;
    advance(s, at, n)?;
    Ok(Span { start, end: at.pos })
}

// The N bytes as they stand.
#[tactic(auto, unfolding(crate::specs::Reading::read_array, crate::specs::Reading::read_as, crate::specs::Reading::length_answer, crate::specs::Reading::place_after))]
pub fn read_array<const N: usize>(s: &[u8], at: &mut Place) -> Result<[u8; N], TooShort>
    ensures answer { result ≡ read_array s.now at.old N }
    ensures place { at.new ≡ place_after s.now at.old N }
{
    let start = at.pos;
    advance(s, at, N)?;
    Ok(array_in(s, start))
}

// A number of each width is the array of its bytes and the type's own `from_le_bytes`. The names are the commit's.
#[tactic(auto, using(crate::proofs::FieldsRead::read_8, crate::proofs::FieldsRead::short_8))]
pub fn read_u8(s: &[u8], at: &mut Place) -> Result<u8, TooShort>
    ensures answer { result ≡ read_u8 s.now at.old }
    ensures place { at.new ≡ place_after s.now at.old 1 }
{
    Ok(u8::from_le_bytes(read_array(s, at)?))
}

#[tactic(auto, using(crate::proofs::FieldsRead::read_16, crate::proofs::FieldsRead::short_16))]
pub fn read_u16_le(s: &[u8], at: &mut Place) -> Result<u16, TooShort>
    ensures answer { result ≡ read_u16 s.now at.old }
    ensures place { at.new ≡ place_after s.now at.old 2 }
{
    Ok(u16::from_le_bytes(read_array(s, at)?))
}

#[tactic(auto, using(crate::proofs::FieldsRead::read_32, crate::proofs::FieldsRead::short_32))]
pub fn read_u32_le(s: &[u8], at: &mut Place) -> Result<u32, TooShort>
    ensures answer { result ≡ read_u32 s.now at.old }
    ensures place { at.new ≡ place_after s.now at.old 4 }
{
    Ok(u32::from_le_bytes(read_array(s, at)?))
}

#[tactic(auto, using(crate::proofs::FieldsRead::read_64, crate::proofs::FieldsRead::short_64))]
pub fn read_u64_le(s: &[u8], at: &mut Place) -> Result<u64, TooShort>
    ensures answer { result ≡ read_u64 s.now at.old }
    ensures place { at.new ≡ place_after s.now at.old 8 }
{
    Ok(u64::from_le_bytes(read_array(s, at)?))
}
