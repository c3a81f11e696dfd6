// Calls 631 to 637: what one report says of a link.
use crate::arguments::{Argument, Arguments};
use crate::reply::{Reply, Reported};
use figures::{
    Counters, RoundTrip, Tallies, delivery_ratio_unchecked, goodput_after_unchecked, goodput_ok,
    is_stale, round_trip, smoothed_ms_unchecked, tallies_ok,
};

pub fn answer(call: u64, args: &mut Arguments<'_>, reply: &mut Reply) -> Option<()> {
    match call {
        631 => reply.put(is_stale(args.take()?, args.take()?)),
        632 => reply.put(round_trip(args.take()?, args.take()?)),
        633 => reply.put(smoothed_ms_unchecked(args.take()?)),
        634 => reply.put(tallies_ok(args.take()?)),
        635 => reply.put(delivery_ratio_unchecked(args.take()?, args.take()?)),
        636 => reply.put(goodput_ok(args.take()?)),
        _ => reply.put(goodput_after_unchecked(
            args.take()?,
            args.take()?,
            args.take()?,
            args.take()?,
        )),
    }
    Some(())
}

impl Argument for Counters {
    fn read(args: &mut Arguments<'_>) -> Option<Counters> {
        Some(Counters {
            highest: args.take()?,
            packets: args.take()?,
            bytes: args.take()?,
            ecn: args.take()?,
            reorders: args.take()?,
        })
    }
}

impl Argument for Tallies {
    fn read(args: &mut Arguments<'_>) -> Option<Tallies> {
        Some(Tallies {
            reports_seen: args.take()?,
            stale: args.take()?,
            no_echo: args.take()?,
            samples: args.take()?,
            zeros: args.take()?,
            failures: args.take()?,
        })
    }
}

// The kind, and the whole milliseconds of a sample.
impl Reported for RoundTrip {
    fn width() -> usize {
        2
    }

    fn report(self, reply: &mut Reply) {
        let (kind, ms) = match self {
            RoundTrip::NoEcho => (0, 0),
            RoundTrip::Sample(ms) => (1, ms),
            RoundTrip::Zero => (2, 0),
            RoundTrip::ArithFail => (3, 0),
        };
        reply.number(kind);
        reply.put(ms);
    }
}
