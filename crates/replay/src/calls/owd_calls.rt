// Calls 331 to 338: `OwdTrendDetector`.
use crate::arguments::{Argument, Arguments};
use crate::calls::Rooms;
use crate::reply::{Reply, Reported};
use algorithms::owd::OwdTrendDetector;

pub fn answer(
    call: u64,
    args: &mut Arguments<'_>,
    rooms: &mut Rooms,
    reply: &mut Reply,
) -> Option<()> {
    match call {
        331 => reply.put(OwdTrendDetector::new(args.take()?)),
        332 => reply.put(OwdTrendDetector::clear(args.take()?)),
        333 => {
            let s: OwdTrendDetector = args.take()?;
            let (at_ms, owd_us) = (args.take()?, args.take()?);
            let times = args.list(&mut rooms.times)?;
            let delays = args.list(&mut rooms.delays)?;
            reply.put(s.push(times, delays, at_ms, owd_us));
            reply.list(times);
            reply.list(delays);
        }
        334 => {
            let s: OwdTrendDetector = args.take()?;
            let times = args.list(&mut rooms.times)?;
            let delays = args.list(&mut rooms.delays)?;
            reply.put(s.trend_us_per_sec(times, delays));
        }
        335 => reply.put(OwdTrendDetector::keeps_rule(args.take()?)),
        336 => reply.put(OwdTrendDetector::windows_ok(args.take()?, args.take()?, args.take()?)),
        337 => reply.put(OwdTrendDetector::clear_unchecked(args.take()?)),
        _ => {
            let s: OwdTrendDetector = args.take()?;
            let (at_ms, owd_us) = (args.take()?, args.take()?);
            let times = args.list(&mut rooms.times)?;
            let delays = args.list(&mut rooms.delays)?;
            reply.put(s.push_unchecked(times, delays, at_ms, owd_us));
            reply.list(times);
            reply.list(delays);
        }
    }
    Some(())
}

impl Argument for OwdTrendDetector {
    fn read(args: &mut Arguments<'_>) -> Option<OwdTrendDetector> {
        Some(OwdTrendDetector {
            capacity: args.take()?,
            count: args.take()?,
            first: args.take()?,
        })
    }
}

impl Reported for OwdTrendDetector {
    fn width() -> usize {
        3
    }

    fn report(self, reply: &mut Reply) {
        reply.put(self.capacity);
        reply.put(self.count);
        reply.put(self.first);
    }
}
