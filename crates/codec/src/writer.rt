// `Writer`: its methods as functions on a lent buffer and the place. What does not fit is refused by document 01's number 6, nothing is written and the place
// stays.
ghost use Rattle.std.specs.Prelude.{◌≡◌, length, take};
ghost use Rattle.codec.specs.LittleEndian.{stored, with_field};
ghost use Rattle.codec.specs.Writing.{start, room_for, written};
ghost use Rattle.refusals.specs.Answers.{answered, passed};

use crate::Place;
use crate::fields::put_bytes;
use crate::reader::needed_for;
use refusals::refusal::Refusal;

pub fn new() -> Place
    ensures { result ≡ start }
{
    Place { pos: 0 }
}

// A writer at the start of a buffer with room for n bytes.
#[tactic(auto, unfolding(crate::specs::Writing::room_for, refusals::specs::Answers::answered, refusals::specs::Answers::numbered))]
pub fn with_capacity(b: &[u8], n: usize) -> Result<Place, Refusal>
    ensures { result ≡ answered (room_for b.now n).refusal (room_for b.now n).place }
{
    if b.len() < n {
        return Err(Refusal::OutputBuffer);
    }
    Ok(new())
}

#[tactic(auto, unfolding(crate::specs::Writing::written, crate::specs::Reading::needed_for, crate::specs::Reading::place_after, refusals::specs::Answers::answered, refusals::specs::Answers::numbered), using(crate::proofs::Stores::not_written))]
pub fn write_bytes(b: &mut [u8], at: &mut Place, v: &[u8]) -> Result<(), Refusal>
    ensures answer { result ≡ passed (written b.old at.old (length v.now)).refusal }
    ensures place { at.new ≡ (written b.old at.old (length v.now)).place }
    ensures bytes { b.new ≡ stored b.old at.old.pos v.now }
{
    if b.len() < needed_for(at.pos, v.len()) {
        return Err(Refusal::OutputBuffer);
    }
    put_bytes(b, at.pos, v);
    at.pos += v.len();
    Ok(())
}

// A number of each width is its bytes. The names are the commit's.
#[tactic(auto, unfolding(crate::specs::LittleEndian::with_field), using(crate::proofs::Parts::bytes_8))]
pub fn write_u8(b: &mut [u8], at: &mut Place, v: u8) -> Result<(), Refusal>
    ensures answer { result ≡ passed (written b.old at.old 1).refusal }
    ensures place { at.new ≡ (written b.old at.old 1).place }
    ensures bytes { b.new ≡ with_field b.old at.old.pos 1 v }
{
    write_bytes(b, at, &[v])
}

#[tactic(auto, unfolding(crate::specs::LittleEndian::with_field), using(crate::proofs::Parts::bytes_16))]
pub fn write_u16_le(b: &mut [u8], at: &mut Place, v: u16) -> Result<(), Refusal>
    ensures answer { result ≡ passed (written b.old at.old 2).refusal }
    ensures place { at.new ≡ (written b.old at.old 2).place }
    ensures bytes { b.new ≡ with_field b.old at.old.pos 2 v }
{
    write_bytes(b, at, &v.to_le_bytes())
}

#[tactic(auto, unfolding(crate::specs::LittleEndian::with_field), using(crate::proofs::Parts::bytes_32))]
pub fn write_u32_le(b: &mut [u8], at: &mut Place, v: u32) -> Result<(), Refusal>
    ensures answer { result ≡ passed (written b.old at.old 4).refusal }
    ensures place { at.new ≡ (written b.old at.old 4).place }
    ensures bytes { b.new ≡ with_field b.old at.old.pos 4 v }
{
    write_bytes(b, at, &v.to_le_bytes())
}

#[tactic(auto, unfolding(crate::specs::LittleEndian::with_field), using(crate::proofs::Parts::bytes_64))]
pub fn write_u64_le(b: &mut [u8], at: &mut Place, v: u64) -> Result<(), Refusal>
    ensures answer { result ≡ passed (written b.old at.old 8).refusal }
    ensures place { at.new ≡ (written b.old at.old 8).place }
    ensures bytes { b.new ≡ with_field b.old at.old.pos 8 v }
{
    write_bytes(b, at, &v.to_le_bytes())
}

// How many bytes have been written.
pub fn len(at: Place) -> usize
    ensures { result ≡ at.pos }
{
    at.pos
}

// The bytes that have been written: the part of the buffer before the place.
pub fn into_vec(b: &[u8], at: Place) -> &[u8]
    ensures { result.now ≡ take at.pos b.now }
{
    &b[..at.pos.min(b.len())]
}
