// A field at a place of a payload, in one expression of its full width. The one length test of each decoder shows that its bytes are there, so none is asked
// for here again; that is why these are private, with a `requires`, and not the total functions of `codec`. One function for each width: each is its bytes and the
// type's own `from_le_bytes`, and a trait to join them would be longer than they are.
ghost use Rattle.std.specs.Prelude.{◌≡◌, ◌+◌, ◌≤◌, length};
ghost use Rattle.std.specs.Int.{w32, cast_signed};
ghost use Rattle.codec.specs.LittleEndian.{field_at};

#[tactic(auto, unfolding(codec::specs::LittleEndian::le_at, codec::specs::LittleEndian::field_at))]
pub(crate) fn u16_in(s: &[u8], at: usize) -> u16
    requires { at + 2 ≤ length s.now }
    ensures { result ≡ field_at s.now at 2 }
{
    u16::from_le_bytes([s[at], s[at + 1]])
}

#[tactic(auto, unfolding(codec::specs::LittleEndian::le_at, codec::specs::LittleEndian::field_at))]
pub(crate) fn u32_in(s: &[u8], at: usize) -> u32
    requires { at + 4 ≤ length s.now }
    ensures { result ≡ field_at s.now at 4 }
{
    u32::from_le_bytes([s[at], s[at + 1], s[at + 2], s[at + 3]])
}

#[tactic(auto, unfolding(codec::specs::LittleEndian::le_at, codec::specs::LittleEndian::field_at))]
pub(crate) fn u64_in(s: &[u8], at: usize) -> u64
    requires { at + 8 ≤ length s.now }
    ensures { result ≡ field_at s.now at 8 }
{
    u64::from_le_bytes([
        s[at],
        s[at + 1],
        s[at + 2],
        s[at + 3],
        s[at + 4],
        s[at + 5],
        s[at + 6],
        s[at + 7],
    ])
}

#[tactic(auto, unfolding(codec::specs::LittleEndian::le_at, codec::specs::LittleEndian::field_at))]
pub(crate) fn i32_in(s: &[u8], at: usize) -> i32
    requires { at + 4 ≤ length s.now }
    ensures { result ≡ cast_signed w32 (field_at s.now at 4) }
{
    i32::from_le_bytes([s[at], s[at + 1], s[at + 2], s[at + 3]])
}
