// Calls on payloads whose length the compiler does not know: each turn reads it from memory. So the length test is counted, and an
// answer's refusal is asked for, as a caller would.
use crate::calls::{receiver_sum, sender_sum};
use crate::table::{picked, store};
use codec::Place;
use codec::reader::{TooShort, read_u16_le, read_u32_le, read_u64_le};
use wire::path_mtu::PathMtuNotification;
use wire::receiver_report::ReceiverReport;
use wire::sender_report::SenderReport;

// Which call of the loop it is. The loop alone is one as the others are, so that the way to a call is counted in it too.
#[derive(Clone, Copy)]
pub enum Arm {
    Alone,
    ReadU16,
    ReadU32,
    ReadU64,
    Sender,
    Receiver,
    PathMtu,
}

impl From<u64> for Arm {
    fn from(call: u64) -> Arm {
        match call {
            106 => Arm::ReadU16,
            107 => Arm::ReadU32,
            108 => Arm::ReadU64,
            1202 => Arm::Sender,
            1204 => Arm::Receiver,
            1207 => Arm::PathMtu,
            _ => Arm::Alone,
        }
    }
}

fn lengths_sum(short: TooShort) -> u64 {
    (short.needed ^ short.given) as u64
}

// The number that was read, and the place after it.
fn read_sum<T: Copy + Into<u64>>(read: Result<T, TooShort>, at: Place) -> u64 {
    match read {
        Ok(value) => value.into() ^ at.pos as u64,
        Err(short) => lengths_sum(short),
    }
}

fn called(arm: Arm, payload: &[u8], pos: usize) -> u64 {
    let mut at = Place { pos };
    match arm {
        Arm::Alone => (payload.len() ^ pos) as u64,
        Arm::ReadU16 => read_sum(read_u16_le(payload, &mut at), at),
        Arm::ReadU32 => read_sum(read_u32_le(payload, &mut at), at),
        Arm::ReadU64 => read_sum(read_u64_le(payload, &mut at), at),
        Arm::Sender => SenderReport::decode(payload).map_or_else(lengths_sum, sender_sum),
        Arm::Receiver => ReceiverReport::decode(payload).map_or_else(lengths_sum, receiver_sum),
        Arm::PathMtu => PathMtuNotification::decode(payload).map_or_else(
            lengths_sum,
            |p| u64::from(p.path_mtu),
        ),
    }
}

// Hands a length on within the table, so that the compiler knows no length.
fn handed_on(lengths: &mut [usize], from: usize, to: usize) -> usize {
    let Some(n) = lengths.get(from).copied() else {
        return 0;
    };
    store(lengths, to, n);
    n
}

pub fn turn(arm: Arm, x: u64, payload: &mut [u8], lengths: &mut [usize]) -> u64 {
    store(payload, picked(x, 67), (x >> 56) as u8);
    let n = handed_on(lengths, picked(x >> 8, 8), picked(x >> 16, 8));
    called(
        arm,
        payload.get(..n).unwrap_or(payload),
        picked(x >> 24, 32),
    )
}
