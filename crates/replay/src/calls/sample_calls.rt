// Calls 461 to 467: the sampling half of a frame.
use crate::arguments::{Argument, Arguments};
use crate::calls::Rooms;
use crate::reply::{Reply, Reported};
use samples::delay::{
    OwdBase, OwdSamples, base_of_unchecked, reference_ok, sample_owd, sample_owd_unchecked,
};
use samples::echo::{Echo, echo_of_unchecked};
use samples::transit::{in_grace, jitter_after_unchecked};

pub fn answer(
    call: u64,
    args: &mut Arguments<'_>,
    rooms: &mut Rooms,
    reply: &mut Reply,
) -> Option<()> {
    match call {
        461 => reply.put(in_grace(args.take()?, args.take()?)),
        462 => reply.put(jitter_after_unchecked(
            args.take()?,
            args.take()?,
            args.take()?,
            args.take()?,
            args.take()?,
        )),
        463 => reply.put(reference_ok(args.take()?)),
        464 => reply.put(base_of_unchecked(args.take()?, args.take()?, args.take()?)),
        465 => reply.put(echo_of_unchecked(args.take()?, args.take()?, args.take()?)),
        _ => {
            let owd: OwdSamples = args.take()?;
            let (timestamp, now_ms) = (args.take()?, args.take()?);
            let times = args.list(&mut rooms.times)?;
            let delays = args.list(&mut rooms.delays)?;
            if call == 466 {
                let OwdSamples { owd_trend, owd_ref } = owd;
                reply.put(sample_owd_unchecked(
                    owd_trend, owd_ref, times, delays, timestamp, now_ms,
                ));
            } else {
                reply.put(sample_owd(owd, times, delays, timestamp, now_ms));
            }
            reply.list(times);
            reply.list(delays);
        }
    }
    Some(())
}

impl Argument for OwdBase {
    fn read(args: &mut Arguments<'_>) -> Option<OwdBase> {
        Some(OwdBase {
            recv_ms: args.take()?,
            sender_timestamp: args.take()?,
        })
    }
}

impl Reported for OwdBase {
    fn width() -> usize {
        2
    }

    fn report(self, reply: &mut Reply) {
        reply.put(self.recv_ms);
        reply.put(self.sender_timestamp);
    }
}

impl Argument for OwdSamples {
    fn read(args: &mut Arguments<'_>) -> Option<OwdSamples> {
        Some(OwdSamples {
            owd_trend: args.take()?,
            owd_ref: args.take()?,
        })
    }
}

impl Reported for OwdSamples {
    fn width() -> usize {
        6
    }

    fn report(self, reply: &mut Reply) {
        reply.put(self.owd_trend);
        reply.put(self.owd_ref);
    }
}

impl Reported for Echo {
    fn width() -> usize {
        2
    }

    fn report(self, reply: &mut Reply) {
        reply.put(self.timestamp_echo);
        reply.put(self.dwell_time);
    }
}
