// Little-endian fields at a position of a slice. Every public function is total: a field that does not lie in the slice whole reads as 0, and a store that
// does not fit writes nothing.
ghost use Rattle.std.specs.Prelude.{◌≡◌, ◌+◌, ◌-◌, ◌≤◌, length, take, drop};
ghost use Rattle.std.specs.Int.{w32, cast_signed, cast_unsigned};
ghost use Rattle.codec.specs.LittleEndian.{bytes_at, field_at, stored, with_field};

// How many bytes lie from a position on.
pub fn left_at(s: &[u8], at: usize) -> usize
    ensures { result ≡ length s.now - at }
{
    s.len().saturating_sub(at)
}

// The N bytes from a position on. The caller has shown that they are there, so nothing is tested here.
pub(crate) fn array_in<const N: usize>(s: &[u8], at: usize) -> [u8; N]
    requires { at + N ≤ length s.now }
    ensures { result ≡ take N (drop at s.now) }
{
    *s[at..at + N].as_array().unwrap()
}

// The N bytes from a position on, where they lie in the slice whole.
#[tactic(auto, unfolding(crate::specs::LittleEndian::bytes_at))]
pub(crate) fn bytes_at<const N: usize>(s: &[u8], at: usize) -> Option<[u8; N]>
    ensures { result ≡ bytes_at s.now at N }
{
    if s.len() < at.saturating_add(N) {
        return None;
    }
    Some(array_in(s, at))
}

#[tactic(auto, unfolding(crate::specs::LittleEndian::field_at, crate::specs::LittleEndian::le_at))]
pub fn u8_at(s: &[u8], at: usize) -> u8
    ensures { result ≡ field_at s.now at 1 }
{
    s.get(at).copied().unwrap_or(0)
}

// One function for each width: each is `bytes_at` and the type's own `from_le_bytes`, and a trait to join them would be longer than they are.
#[tactic(auto, using(crate::proofs::Parts::number_16, crate::proofs::Parts::no_number))]
pub fn u16_at(s: &[u8], at: usize) -> u16
    ensures { result ≡ field_at s.now at 2 }
{
    match bytes_at(s, at) {
        Some(bytes) => u16::from_le_bytes(bytes),
        None => 0,
    }
}

#[tactic(auto, using(crate::proofs::Parts::number_32, crate::proofs::Parts::no_number))]
pub fn u32_at(s: &[u8], at: usize) -> u32
    ensures { result ≡ field_at s.now at 4 }
{
    match bytes_at(s, at) {
        Some(bytes) => u32::from_le_bytes(bytes),
        None => 0,
    }
}

#[tactic(auto, using(crate::proofs::Parts::number_64, crate::proofs::Parts::no_number))]
pub fn u64_at(s: &[u8], at: usize) -> u64
    ensures { result ≡ field_at s.now at 8 }
{
    match bytes_at(s, at) {
        Some(bytes) => u64::from_le_bytes(bytes),
        None => 0,
    }
}

pub fn i32_at(s: &[u8], at: usize) -> i32
    ensures { result ≡ cast_signed w32 (field_at s.now at 4) }
{
    u32_at(s, at).cast_signed()
}

// The bytes of v from a position on, where they fit.
#[tactic(auto, using(crate::proofs::Stores::written_over, crate::proofs::Stores::not_written))]
pub(crate) fn put_bytes(b: &mut [u8], at: usize, v: &[u8])
    ensures { b.new ≡ stored b.old at v.now }
{
    if at.saturating_add(v.len()) <= b.len() {
        b[at..at + v.len()].copy_from_slice(v);
    }
}

// One line for each width, over `put_bytes` and the type's own `to_le_bytes`, and no trait, which would be longer.
#[tactic(auto, unfolding(crate::specs::LittleEndian::with_field), using(crate::proofs::Parts::bytes_8))]
pub fn put_u8(b: &mut [u8], at: usize, x: u8)
    ensures { b.new ≡ with_field b.old at 1 x }
{
    put_bytes(b, at, &[x]);
}

#[tactic(auto, unfolding(crate::specs::LittleEndian::with_field), using(crate::proofs::Parts::bytes_16))]
pub fn put_u16(b: &mut [u8], at: usize, x: u16)
    ensures { b.new ≡ with_field b.old at 2 x }
{
    put_bytes(b, at, &x.to_le_bytes());
}

#[tactic(auto, unfolding(crate::specs::LittleEndian::with_field), using(crate::proofs::Parts::bytes_32))]
pub fn put_u32(b: &mut [u8], at: usize, x: u32)
    ensures { b.new ≡ with_field b.old at 4 x }
{
    put_bytes(b, at, &x.to_le_bytes());
}

#[tactic(auto, unfolding(crate::specs::LittleEndian::with_field), using(crate::proofs::Parts::bytes_64))]
pub fn put_u64(b: &mut [u8], at: usize, x: u64)
    ensures { b.new ≡ with_field b.old at 8 x }
{
    put_bytes(b, at, &x.to_le_bytes());
}

pub fn put_i32(b: &mut [u8], at: usize, z: i32)
    ensures { b.new ≡ with_field b.old at 4 (cast_unsigned w32 z) }
{
    put_u32(b, at, z.cast_unsigned());
}
