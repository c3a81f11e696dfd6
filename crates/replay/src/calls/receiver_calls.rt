// Calls 501 to 519: `ReceiverState`.
use crate::arguments::{Argument, Arguments};
use crate::calls::Rooms;
use crate::reply::{Reply, Reported};
use receiver::ReceiverState;

pub fn answer(
    call: u64,
    args: &mut Arguments<'_>,
    rooms: &mut Rooms,
    reply: &mut Reply,
) -> Option<()> {
    match call {
        501 => reply.put(ReceiverState::new(args.take()?)),
        502 => reply.put(ReceiverState::default()),
        503 => reply.put(ReceiverState::new_with_cold_start(args.take()?, args.take()?)),
        504 | 505 => record(call, args, rooms, reply)?,
        506 => reply.put(ReceiverState::reset_for_rekey(args.take()?, args.take()?)),
        507 => {
            let s: ReceiverState = args.take()?;
            let now_ms = args.take()?;
            let times = args.list(&mut rooms.times)?;
            let delays = args.list(&mut rooms.delays)?;
            reply.put(s.build_report(times, delays, now_ms));
        }
        508 => reply.put(ReceiverState::should_send_report(args.take()?, args.take()?)),
        509 => reply.put(ReceiverState::update_report_interval_from_srtt(
            args.take()?,
            args.take()?,
        )),
        510 => reply.put(ReceiverState::update_report_interval_with_bounds(
            args.take()?,
            args.take()?,
            args.take()?,
            args.take()?,
        )),
        511 => reply.put(ReceiverState::cumulative_packets_recv(args.take()?)),
        512 => reply.put(ReceiverState::cumulative_bytes_recv(args.take()?)),
        513 => reply.put(ReceiverState::highest_counter(args.take()?)),
        514 => reply.put(ReceiverState::jitter_us(args.take()?)),
        515 => reply.put(ReceiverState::report_interval_ms(args.take()?)),
        516 => reply.put(ReceiverState::last_recv_ms(args.take()?)),
        517 => reply.put(ReceiverState::ecn_ce_count(args.take()?)),
        518 => reply.put(ReceiverState::keeps_rule(args.take()?)),
        _ => reply.put(ReceiverState::interval_max_lateness(args.take()?)),
    }
    Some(())
}

// A frame.
fn record(call: u64, args: &mut Arguments<'_>, rooms: &mut Rooms, reply: &mut Reply) -> Option<()> {
    let s: ReceiverState = args.take()?;
    let (counter, sent_ms, bytes) = (args.take()?, args.take()?, args.take()?);
    let (ce_flag, now_ms) = (args.take()?, args.take()?);
    let sampled = match call {
        504 => Some(args.take()?),
        _ => None,
    };
    let times = args.list(&mut rooms.times)?;
    let delays = args.list(&mut rooms.delays)?;
    reply.put(match sampled {
        Some(sampled) => s.record_frame(
            times, delays, counter, sent_ms, bytes, ce_flag, now_ms, sampled,
        ),
        None => s.record_recv(times, delays, counter, sent_ms, bytes, ce_flag, now_ms),
    });
    reply.list(times);
    reply.list(delays);
    Some(())
}

impl Argument for ReceiverState {
    fn read(args: &mut Arguments<'_>) -> Option<ReceiverState> {
        Some(ReceiverState {
            cumulative_packets_recv: args.take()?,
            cumulative_bytes_recv: args.take()?,
            cumulative_reorder_count: args.take()?,
            highest_counter: args.take()?,
            interval_packets_recv: args.take()?,
            interval_bytes_recv: args.take()?,
            jitter: args.take()?,
            owd_trend: args.take()?,
            owd_ref: args.take()?,
            gap_tracker: args.take()?,
            ecn_ce_count: args.take()?,
            last_sender_timestamp: args.take()?,
            last_recv_ms: args.take()?,
            rekey_jitter_grace_until_ms: args.take()?,
            last_report_ms: args.take()?,
            report_interval_ms: args.take()?,
            interval_has_data: args.take()?,
            srtt_sample_count: args.take()?,
            interval_max_lateness: args.take()?,
        })
    }
}

impl Reported for ReceiverState {
    fn width() -> usize {
        32
    }

    fn report(self, reply: &mut Reply) {
        reply.put(self.cumulative_packets_recv);
        reply.put(self.cumulative_bytes_recv);
        reply.put(self.cumulative_reorder_count);
        reply.put(self.highest_counter);
        reply.put(self.interval_packets_recv);
        reply.put(self.interval_bytes_recv);
        reply.put(self.jitter);
        reply.put(self.owd_trend);
        reply.put(self.owd_ref);
        reply.put(self.gap_tracker);
        reply.put(self.ecn_ce_count);
        reply.put(self.last_sender_timestamp);
        reply.put(self.last_recv_ms);
        reply.put(self.rekey_jitter_grace_until_ms);
        reply.put(self.last_report_ms);
        reply.put(self.report_interval_ms);
        reply.put(self.interval_has_data);
        reply.put(self.srtt_sample_count);
        reply.put(self.interval_max_lateness);
    }
}
