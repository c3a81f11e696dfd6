// Calls 201 to 207: the reports and the path MTU notification.
use crate::arguments::{Argument, Arguments};
use crate::calls::Rooms;
use crate::reply::{Reply, Reported};
use wire::path_mtu::PathMtuNotification;
use wire::receiver_report::ReceiverReport;
use wire::sender_report::SenderReport;

pub fn answer(
    call: u64,
    args: &mut Arguments<'_>,
    rooms: &mut Rooms,
    reply: &mut Reply,
) -> Option<()> {
    match call {
        201 => {
            let report: SenderReport = args.take()?;
            let buffer = args.list(&mut rooms.buffer)?;
            reply.put(report.encode(buffer));
            reply.list(buffer);
        }
        202 => reply.put(SenderReport::decode(args.list(&mut rooms.buffer)?)),
        203 => {
            let report: ReceiverReport = args.take()?;
            let buffer = args.list(&mut rooms.buffer)?;
            reply.put(report.encode(buffer));
            reply.list(buffer);
        }
        204 => reply.put(ReceiverReport::decode(args.list(&mut rooms.buffer)?)),
        205 => reply.put(PathMtuNotification::new(args.take()?)),
        206 => {
            let notification = PathMtuNotification::new(args.take()?);
            let buffer = args.list(&mut rooms.buffer)?;
            reply.put(notification.encode(buffer));
            reply.list(buffer);
        }
        _ => reply.put(PathMtuNotification::decode(args.list(&mut rooms.buffer)?)),
    }
    Some(())
}

impl Reported for PathMtuNotification {
    fn report(self, reply: &mut Reply) {
        reply.put(self.path_mtu);
    }
}

impl Argument for SenderReport {
    fn read(args: &mut Arguments<'_>) -> Option<SenderReport> {
        Some(SenderReport {
            interval_start_counter: args.take()?,
            interval_end_counter: args.take()?,
            interval_start_timestamp: args.take()?,
            interval_end_timestamp: args.take()?,
            interval_bytes_sent: args.take()?,
            cumulative_packets_sent: args.take()?,
            cumulative_bytes_sent: args.take()?,
        })
    }
}

impl Reported for SenderReport {
    fn width() -> usize {
        7
    }

    fn report(self, reply: &mut Reply) {
        reply.put(self.interval_start_counter);
        reply.put(self.interval_end_counter);
        reply.put(self.interval_start_timestamp);
        reply.put(self.interval_end_timestamp);
        reply.put(self.interval_bytes_sent);
        reply.put(self.cumulative_packets_sent);
        reply.put(self.cumulative_bytes_sent);
    }
}

impl Argument for ReceiverReport {
    fn read(args: &mut Arguments<'_>) -> Option<ReceiverReport> {
        Some(ReceiverReport {
            highest_counter: args.take()?,
            cumulative_packets_recv: args.take()?,
            cumulative_bytes_recv: args.take()?,
            timestamp_echo: args.take()?,
            dwell_time: args.take()?,
            max_burst_loss: args.take()?,
            mean_burst_loss: args.take()?,
            jitter: args.take()?,
            ecn_ce_count: args.take()?,
            owd_trend: args.take()?,
            burst_loss_count: args.take()?,
            cumulative_reorder_count: args.take()?,
            interval_packets_recv: args.take()?,
            interval_bytes_recv: args.take()?,
        })
    }
}

impl Reported for ReceiverReport {
    fn width() -> usize {
        14
    }

    fn report(self, reply: &mut Reply) {
        reply.put(self.highest_counter);
        reply.put(self.cumulative_packets_recv);
        reply.put(self.cumulative_bytes_recv);
        reply.put(self.timestamp_echo);
        reply.put(self.dwell_time);
        reply.put(self.max_burst_loss);
        reply.put(self.mean_burst_loss);
        reply.put(self.jitter);
        reply.put(self.ecn_ce_count);
        reply.put(self.owd_trend);
        reply.put(self.burst_loss_count);
        reply.put(self.cumulative_reorder_count);
        reply.put(self.interval_packets_recv);
        reply.put(self.interval_bytes_recv);
    }
}
