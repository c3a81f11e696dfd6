// Calls 121 to 129: `Writer`.
use crate::arguments::{Argument, Arguments};
use crate::calls::Rooms;
use crate::reply::Reply;
use codec::{Place, writer};
use refusals::refusal::Refusal;

pub fn answer(
    call: u64,
    args: &mut Arguments<'_>,
    rooms: &mut Rooms,
    reply: &mut Reply,
) -> Option<()> {
    match call {
        121 => reply.put(writer::new()),
        122 => {
            let n = args.take()?;
            reply.put(writer::with_capacity(args.list(&mut rooms.buffer)?, n));
        }
        123 => written(args, rooms, reply, writer::write_u8)?,
        124 => written(args, rooms, reply, writer::write_u16_le)?,
        125 => written(args, rooms, reply, writer::write_u32_le)?,
        126 => written(args, rooms, reply, writer::write_u64_le)?,
        127 => {
            let mut at = args.take()?;
            let bytes = args.list(&mut rooms.bytes)?;
            let buffer = args.list(&mut rooms.buffer)?;
            reply.put(writer::write_bytes(buffer, &mut at, bytes));
            reply.put(at);
            reply.list(buffer);
        }
        128 => reply.put(writer::len(args.take()?)),
        _ => {
            let at = args.take()?;
            reply.list(writer::into_vec(args.list(&mut rooms.buffer)?, at));
        }
    }
    Some(())
}

// The calls that write a number.
fn written<T: Argument, F: FnOnce(&mut [u8], &mut Place, T) -> Result<(), Refusal>>(
    args: &mut Arguments<'_>,
    rooms: &mut Rooms,
    reply: &mut Reply,
    write: F,
) -> Option<()>
    requires { F.IsAlwaysCallable write }
{
    let mut at = args.take()?;
    let v = args.take()?;
    let buffer = args.list(&mut rooms.buffer)?;
    reply.put(write(buffer, &mut at, v));
    reply.put(at);
    reply.list(buffer);
    Some(())
}
