// Calls 141 to 159: little-endian fields.
use crate::arguments::{Argument, Arguments};
use crate::calls::Rooms;
use crate::reply::Reply;
use codec::fields;

pub fn answer(
    call: u64,
    args: &mut Arguments<'_>,
    rooms: &mut Rooms,
    reply: &mut Reply,
) -> Option<()> {
    match call {
        141..=146 => field(call, args.take()?, args.list(&mut rooms.buffer)?, reply),
        147 => reply.put(args.take::<u32>()?.cast_signed()),
        148 => reply.put(args.take::<i32>()?.cast_unsigned()),
        151 => stored(args, rooms, reply, fields::put_u8)?,
        152 => stored(args, rooms, reply, fields::put_u16)?,
        153 => stored(args, rooms, reply, fields::put_u32)?,
        154 => stored(args, rooms, reply, fields::put_u64)?,
        155 => stored(args, rooms, reply, fields::put_i32)?,
        156 => reply.put(u16::from_le_bytes(args.take()?)),
        157 => reply.put(u32::from_le_bytes(args.take()?)),
        158 => reply.put(u64::from_le_bytes(args.take()?)),
        159 => reply.put(i32::from_le_bytes(args.take()?)),
        _ => return None,
    }
    Some(())
}

fn field(call: u64, at: usize, s: &[u8], reply: &mut Reply) {
    match call {
        141 => reply.put(fields::u8_at(s, at)),
        142 => reply.put(fields::u16_at(s, at)),
        143 => reply.put(fields::u32_at(s, at)),
        144 => reply.put(fields::u64_at(s, at)),
        145 => reply.put(fields::i32_at(s, at)),
        _ => reply.put(fields::left_at(s, at)),
    }
}

fn stored<T: Argument, F: FnOnce(&mut [u8], usize, T)>(
    args: &mut Arguments<'_>,
    rooms: &mut Rooms,
    reply: &mut Reply,
    put: F,
) -> Option<()>
    requires { F.IsAlwaysCallable put }
{
    let at = args.take()?;
    let x = args.take()?;
    let buffer = args.list(&mut rooms.buffer)?;
    put(buffer, at, x);
    reply.list(buffer);
    Some(())
}
