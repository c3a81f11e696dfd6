// Runs a call of `wire`, `algorithms` or a record many times, and writes a checksum of what it answered. Arguments: the call's number, as in
// docs/REPLAY.md, how often, a count of turns whose checksum is taken off again (0), and by how many bytes the payloads of the second loop of decoders are shorter
// than 67 (0). Calls 0, 100, 300, 400, 500 and 600 are the loops alone. The decoders, 202, 204 and 207, are compiled with the payload's length known, and as 1202, 1204 and 1207 without it. The trend, 334, is
// over 32 pairs, and as 1334 over 256, the most that a window holds; a frame, 504, is sampled, and as 1504 not; a report processed, 603, is fresh, and as 1603 late. oracle/src/bin/bench is
// the same program over the commit's Rust.

#![tactic(auto)]

mod calls;
mod decoded;
mod estimators;
mod processed;
mod received;
mod sent;
mod table;

use sender::SenderState;
use std::io;
use std::rt::Env;

// The first random number.
const START: u64 = 88_172_645_463_325_252;

// A number that is above this gets no digit more.
const MOST: u64 = 1_000_000_000_000_000_000;

// Marsaglia's xorshift.
fn next(x: u64) -> u64 {
    let a = x ^ (x << 13);
    let b = a ^ (a >> 7);
    b ^ (b << 17)
}

// The sum of what so many turns add, each with a random number.
fn run<F: FnMut(u64) -> u64>(count: u64, mut turn: F) -> u64
    requires { F.IsAlwaysCallable turn }
{
    let mut x = START;
    let mut sum = 0u64;
    for _ in 0..count {
        x = next(x);
        sum = sum.wrapping_add(turn(x));
    }
    sum
}

// Each loop is a function of its own: in one function with the others, what one record's loop holds in registers moves the count of another's.

#[inline(never)]
fn reports_sum(call: u64, count: u64) -> u64 {
    let mut payload = [0; 67];
    let mut out = [0; 68];
    run(count, |x| calls::turn(call, x, &mut payload, &mut out))
}

#[inline(never)]
fn decoded_sum(call: u64, count: u64, short: u64) -> u64 {
    let arm = decoded::Arm::from(call);
    let mut payload = [0; 80];
    // A payload lacks some of 67 bytes.
    let mut lengths = [67u64.saturating_sub(short) as usize; 8];
    run(count, |x| decoded::turn(arm, x, &mut payload, &mut lengths))
}

#[inline(never)]
fn figures_sum(call: u64, count: u64) -> u64 {
    let n = if call == 1334 { 256 } else { 32 };
    let mut numbers = [0; 64];
    let mut times = [0; 256];
    let mut delays = [0; 256];
    let times = &mut times[..n];
    let delays = &mut delays[..n];
    run(
        count,
        |x| estimators::turn(call, x, &mut numbers, times, delays),
    )
}

#[inline(never)]
fn sent_sum(call: u64, count: u64) -> u64 {
    let mut states = [SenderState::new(); 8];
    let sum = run(count, |x| sent::turn(call, x, &mut states));
    sum.wrapping_add(sent::states_sum(&states))
}

#[inline(never)]
fn received_sum(call: u64, count: u64) -> u64 {
    let mut numbers = [0; 64];
    let mut times = [0; 32];
    let mut delays = [0; 32];
    run(
        count,
        |x| received::turn(call, x, &mut numbers, &mut times, &mut delays),
    )
}

#[inline(never)]
fn processed_sum(call: u64, count: u64) -> u64 {
    let mut numbers = [0; 64];
    let mut floats = [0.0; 64];
    let mut tallies = [0; 64];
    run(
        count,
        |x| processed::turn(call, x, &mut numbers, &mut floats, &mut tallies),
    )
}

// A call's number less its thousands says whose loop it is in, but for the decoders that do not know the length. A match on the number, here and in each loop, and no
// table of closures: a call through a table would be counted too.
fn sum_of(call: u64, count: u64, short: u64) -> u64 {
    match call {
        1202 | 1204 | 1207 => decoded_sum(call, count, short),
        _ => match call % 1000 / 100 {
            1 => decoded_sum(call, count, short),
            3 => figures_sum(call, count),
            4 => sent_sum(call, count),
            5 => received_sum(call, count),
            6 => processed_sum(call, count),
            _ => reports_sum(call, count),
        },
    }
}

// The number that the digits write, as far as it fits; every other byte is passed over.
fn number(digits: &[u8]) -> u64 {
    let mut value = 0;
    for b in digits {
        if b.is_ascii_digit() && value <= MOST {
            value = 10 * value + u64::from(*b - b'0');
        }
    }
    value
}

// An argument that is missing, or longer than the greatest number, is 0.
fn argument(rt: &impl Env, i: usize) -> u64 {
    let mut digits = [0; 20];
    let n = rt.arg(i, &mut digits).unwrap_or(0);
    number(&digits[..n])
}

fn main(rt: HostRuntime) -> io::Result<()> {
    let call = argument(&rt, 1);
    let short = argument(&rt, 4);
    let sum = sum_of(call, argument(&rt, 2), short);
    let less = sum_of(call, argument(&rt, 3), short);
    println!(rt; "{}", sum.wrapping_sub(less))
}
