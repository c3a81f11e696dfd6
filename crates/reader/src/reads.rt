// Each read by a reader that is made at a position of a payload: the answer, and the place where the reader stands then. And what a new one has left. One function of each: their
// names are public, and each is one call.
ghost use Rattle.std.specs.Prelude.{◌≡◌, length};
ghost use Rattle.codec.specs.Reading.{place_after, read_u8, read_u16, read_u32, read_u64, read_array};
ghost use Rattle.reader.specs.Held.{place_at};

use crate::Reader;
use codec::Place;
use codec::reader::TooShort;

pub fn read_u8_at(payload: &[u8], pos: usize) -> (Result<u8, TooShort>, Place)
    ensures { result ≡ (read_u8 payload.now (place_at pos), place_after payload.now (place_at pos) 1) }
{
    let at = Place { pos };
    let mut reader = Reader { buf: payload, at };
    let read = reader.read_u8();
    (read, reader.at)
}

pub fn read_u16_le_at(payload: &[u8], pos: usize) -> (Result<u16, TooShort>, Place)
    ensures { result ≡ (read_u16 payload.now (place_at pos), place_after payload.now (place_at pos) 2) }
{
    let at = Place { pos };
    let mut reader = Reader { buf: payload, at };
    let read = reader.read_u16_le();
    (read, reader.at)
}

pub fn read_u32_le_at(payload: &[u8], pos: usize) -> (Result<u32, TooShort>, Place)
    ensures { result ≡ (read_u32 payload.now (place_at pos), place_after payload.now (place_at pos) 4) }
{
    let at = Place { pos };
    let mut reader = Reader { buf: payload, at };
    let read = reader.read_u32_le();
    (read, reader.at)
}

pub fn read_u64_le_at(payload: &[u8], pos: usize) -> (Result<u64, TooShort>, Place)
    ensures { result ≡ (read_u64 payload.now (place_at pos), place_after payload.now (place_at pos) 8) }
{
    let at = Place { pos };
    let mut reader = Reader { buf: payload, at };
    let read = reader.read_u64_le();
    (read, reader.at)
}

pub fn read_array_at<const N: usize>(
    payload: &[u8],
    pos: usize,
) -> (Result<[u8; N], TooShort>, Place)
    ensures { result ≡ (read_array payload.now (place_at pos) N, place_after payload.now (place_at pos) N) }
{
    let at = Place { pos };
    let mut reader = Reader { buf: payload, at };
    let read = reader.read_array();
    (read, reader.at)
}

pub fn remaining(payload: &[u8]) -> usize
    ensures { result ≡ length payload.now }
{
    Reader::new(payload).remaining()
}
