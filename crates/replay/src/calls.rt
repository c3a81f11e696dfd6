// The groups of calls. A call takes its arguments and puts what it answers into the reply; it answers none where they are malformed. It may put something before
// that is seen: the reply counts only where no number is left over.
mod estimator_calls;
mod field_calls;
mod figure_calls;
mod gap_calls;
mod held_calls;
mod metrics_calls;
mod owd_calls;
mod reader_calls;
mod receiver_calls;
mod sample_calls;
mod sender_calls;
mod wire_calls;
mod writer_calls;

use crate::arguments::Arguments;
use crate::reply::Reply;

// What a call is lent, in tables for the reason that line.rt gives: its buffer, the bytes that it writes there, and the times and the delays of its windows.
#[derive(Drop)]
pub struct Rooms {
    buffer: [u8; 1024],
    bytes: [u8; 1024],
    times: [u32; 4100],
    delays: [i64; 4100],
}

impl Rooms {
    pub fn new() -> Rooms {
        Rooms {
            buffer: [0; 1024],
            bytes: [0; 1024],
            times: [0; 4100],
            delays: [0; 4100],
        }
    }
}

// The answer to a line of numbers.
pub fn answer(given: &[u64], rooms: &mut Rooms, reply: &mut Reply) -> Option<()> {
    let mut args = Arguments { left: given };
    called(args.number()?, &mut args, rooms, reply)?;
    args.end()
}

// A match on the numbers of docs/REPLAY.md, here and in each group: a table of closures would have a line for each too, and one type for calls that take and answer
// different ones.
fn called(call: u64, args: &mut Arguments<'_>, rooms: &mut Rooms, reply: &mut Reply) -> Option<()> {
    match call {
        101..=112 => reader_calls::answer(call, args, rooms, reply),
        121..=129 => writer_calls::answer(call, args, rooms, reply),
        141..=159 => field_calls::answer(call, args, rooms, reply),
        161..=175 => held_calls::answer(call, args, rooms, reply),
        201..=207 => wire_calls::answer(call, args, rooms, reply),
        301..=306 => estimator_calls::jitter(call, args, reply),
        311..=318 => estimator_calls::round_trip(call, args, reply),
        321..=328 => estimator_calls::trends(call, args, reply),
        331..=338 => owd_calls::answer(call, args, rooms, reply),
        341..=344 => estimator_calls::quality(call, args, reply),
        351..=357 => estimator_calls::spin(call, args, reply),
        401..=417 => sender_calls::answer(call, args, reply),
        451..=459 | 471..=473 => gap_calls::answer(call, args, reply),
        461..=467 => sample_calls::answer(call, args, rooms, reply),
        501..=519 => receiver_calls::answer(call, args, rooms, reply),
        601..=621 => metrics_calls::answer(call, args, reply),
        631..=637 => figure_calls::answer(call, args, reply),
        _ => None,
    }
}
