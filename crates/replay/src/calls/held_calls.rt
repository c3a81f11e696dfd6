// Calls 161 to 175: the reader that holds its payload, and what it is made of.
use crate::arguments::Arguments;
use crate::calls::Rooms;
use crate::reply::Reply;
use codec::reader::needed_for;
use reader::{reads, reports};
use wire::{receiver_report, sender_report};

pub fn answer(
    call: u64,
    args: &mut Arguments<'_>,
    rooms: &mut Rooms,
    reply: &mut Reply,
) -> Option<()> {
    match call {
        161..=167 => {
            let pos = args.take()?;
            read(call, args.list(&mut rooms.buffer)?, pos, reply);
        }
        168 => reply.put(reports::decode_sender_report(args.list(&mut rooms.buffer)?)),
        169 => reply.put(reports::decode_receiver_report(args.list(&mut rooms.buffer)?)),
        170 => {
            let pos = args.take()?;
            reply.put(sender_report::decode_at(args.list(&mut rooms.buffer)?, pos));
        }
        171 => {
            let pos = args.take()?;
            reply.put(receiver_report::decode_at(args.list(&mut rooms.buffer)?, pos));
        }
        174 => reply.put(needed_for(args.take()?, args.take()?)),
        175 => reply.put(reads::remaining(args.list(&mut rooms.buffer)?)),
        _ => return None,
    }
    Some(())
}

fn read(call: u64, payload: &[u8], pos: usize, reply: &mut Reply) {
    match call {
        161 => reply.put(reads::read_u8_at(payload, pos)),
        162 => reply.put(reads::read_u16_le_at(payload, pos)),
        163 => reply.put(reads::read_u32_le_at(payload, pos)),
        164 => reply.put(reads::read_u64_le_at(payload, pos)),
        165 => reply.put(reads::read_array_at::<2>(payload, pos)),
        166 => reply.put(reads::read_array_at::<4>(payload, pos)),
        _ => reply.put(reads::read_array_at::<8>(payload, pos)),
    }
}
