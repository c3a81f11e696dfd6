// Calls 401 to 417: `SenderState`.
use crate::arguments::{Argument, Arguments};
use crate::reply::{Reply, Reported};
use sender::SenderState;
use sender::backoff::backoff_of;

pub fn answer(call: u64, args: &mut Arguments<'_>, reply: &mut Reply) -> Option<()> {
    match call {
        401 => reply.put(SenderState::new()),
        402 => reply.put(SenderState::default()),
        403 => reply.put(SenderState::new_with_cold_start(args.take()?)),
        404 => reply.put(SenderState::record_sent(
            args.take()?,
            args.take()?,
            args.take()?,
            args.take()?,
        )),
        405 => reply.put(SenderState::build_report(args.take()?, args.take()?)),
        406 => reply.put(SenderState::should_send_report(args.take()?, args.take()?)),
        407 => reply.put(SenderState::record_send_failure(args.take()?)),
        408 => reply.put(SenderState::record_send_success(args.take()?)),
        409 => reply.put(SenderState::send_failure_backoff_multiplier(args.take()?)),
        410 => reply.put(SenderState::update_report_interval_from_srtt(args.take()?, args.take()?)),
        411 => reply.put(SenderState::update_report_interval_with_bounds(
            args.take()?,
            args.take()?,
            args.take()?,
            args.take()?,
        )),
        412 => reply.put(SenderState::cumulative_packets_sent(args.take()?)),
        413 => reply.put(SenderState::cumulative_bytes_sent(args.take()?)),
        414 => reply.put(SenderState::report_interval_ms(args.take()?)),
        415 => reply.put(SenderState::consecutive_send_failures(args.take()?)),
        416 => reply.put(SenderState::keeps_rule(args.take()?)),
        _ => reply.put(backoff_of(args.take()?)),
    }
    Some(())
}

impl Argument for SenderState {
    fn read(args: &mut Arguments<'_>) -> Option<SenderState> {
        Some(SenderState {
            cumulative_packets_sent: args.take()?,
            cumulative_bytes_sent: args.take()?,
            interval_start_counter: args.take()?,
            interval_start_timestamp: args.take()?,
            interval_bytes_sent: args.take()?,
            last_counter: args.take()?,
            last_timestamp: args.take()?,
            interval_has_data: args.take()?,
            has_last_report: args.take()?,
            last_report_ms: args.take()?,
            report_interval_ms: args.take()?,
            consecutive_send_failures: args.take()?,
            srtt_sample_count: args.take()?,
        })
    }
}

impl Reported for SenderState {
    fn width() -> usize {
        13
    }

    fn report(self, reply: &mut Reply) {
        reply.put(self.cumulative_packets_sent);
        reply.put(self.cumulative_bytes_sent);
        reply.put(self.interval_start_counter);
        reply.put(self.interval_start_timestamp);
        reply.put(self.interval_bytes_sent);
        reply.put(self.last_counter);
        reply.put(self.last_timestamp);
        reply.put(self.interval_has_data);
        reply.put(self.has_last_report);
        reply.put(self.last_report_ms);
        reply.put(self.report_interval_ms);
        reply.put(self.consecutive_send_failures);
        reply.put(self.srtt_sample_count);
    }
}
