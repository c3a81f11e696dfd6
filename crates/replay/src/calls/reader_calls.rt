// Calls 101 to 112: `Reader`.
use crate::arguments::{Argument, Arguments};
use crate::calls::Rooms;
use crate::reply::{Reply, Reported};
use codec::{Place, reader as at_place};

impl Argument for Place {
    fn read(args: &mut Arguments<'_>) -> Option<Place> {
        Some(Place { pos: args.take()? })
    }
}

impl Reported for Place {
    fn report(self, reply: &mut Reply) {
        reply.put(self.pos);
    }
}

pub fn answer(
    call: u64,
    args: &mut Arguments<'_>,
    rooms: &mut Rooms,
    reply: &mut Reply,
) -> Option<()> {
    let at = args.take()?;
    let n = match call {
        103 | 104 | 109 => args.take()?,
        _ => 0,
    };
    let payload = args.list(&mut rooms.buffer)?;
    match call {
        101 => reply.put(at_place::remaining(payload, at)),
        102 => reply.list(at_place::rest(payload, at)),
        103 => reply.put(at_place::require(payload, at, n)),
        _ => read(call, payload, at, n, reply),
    }
    Some(())
}

// The calls that may move the place.
fn read(call: u64, payload: &[u8], from: Place, n: usize, reply: &mut Reply) {
    let mut at = from;
    match call {
        104 => reply.put(at_place::advance(payload, &mut at, n)),
        105 => reply.put(at_place::read_u8(payload, &mut at)),
        106 => reply.put(at_place::read_u16_le(payload, &mut at)),
        107 => reply.put(at_place::read_u32_le(payload, &mut at)),
        108 => reply.put(at_place::read_u64_le(payload, &mut at)),
        109 => {
            let span = at_place::read_bytes(payload, &mut at, n);
            reply.put(span.map(|span| payload.get(span.start..span.end).unwrap_or(&[])));
        }
        110 => reply.put(at_place::read_array::<2>(payload, &mut at)),
        111 => reply.put(at_place::read_array::<4>(payload, &mut at)),
        _ => reply.put(at_place::read_array::<8>(payload, &mut at)),
    }
    reply.put(at);
}
