// Calls of `wire`. Each turn stores a byte of its random number in the payload, makes the call, and adds a byte of the output at a place that the number picks: so
// no call can be left out or moved out of the loop.
use crate::table::{at, picked, refusal_of, store, u16_of, u32_of};
use wire::path_mtu::PathMtuNotification;
use wire::receiver_report::ReceiverReport;
use wire::sender_report::SenderReport;

fn sender_of(x: u64) -> SenderReport {
    SenderReport {
        interval_start_counter: x,
        interval_end_counter: x ^ 1,
        interval_start_timestamp: u32_of(x ^ 2),
        interval_end_timestamp: u32_of(x ^ 3),
        interval_bytes_sent: u32_of(x ^ 4),
        cumulative_packets_sent: x ^ 5,
        cumulative_bytes_sent: x ^ 6,
    }
}

fn receiver_of(x: u64) -> ReceiverReport {
    ReceiverReport {
        highest_counter: x,
        cumulative_packets_recv: x ^ 1,
        cumulative_bytes_recv: x ^ 2,
        timestamp_echo: u32_of(x ^ 3),
        dwell_time: u16_of(x ^ 4),
        max_burst_loss: u16_of(x ^ 5),
        mean_burst_loss: u16_of(x ^ 6),
        jitter: u32_of(x ^ 7),
        ecn_ce_count: u32_of(x ^ 8),
        owd_trend: u32_of(x ^ 9).cast_signed(),
        burst_loss_count: u32_of(x ^ 10),
        cumulative_reorder_count: u32_of(x ^ 11),
        interval_packets_recv: u32_of(x ^ 12),
        interval_bytes_recv: u32_of(x ^ 13),
    }
}

pub fn sender_sum(r: SenderReport) -> u64 {
    let words = r.interval_start_timestamp ^ r.interval_end_timestamp ^ r.interval_bytes_sent;
    r.interval_start_counter
        ^ r.interval_end_counter
        ^ u64::from(words)
        ^ r.cumulative_packets_sent
        ^ r.cumulative_bytes_sent
}

pub fn receiver_sum(r: ReceiverReport) -> u64 {
    let halves = r.dwell_time ^ r.max_burst_loss ^ r.mean_burst_loss;
    // Two sums of words and not one: one is 2 instructions more.
    let delays = r.timestamp_echo
        ^ r.jitter
        ^ r.ecn_ce_count
        ^ r.owd_trend.cast_unsigned()
        ^ r.burst_loss_count;
    let intervals = r.cumulative_reorder_count ^ r.interval_packets_recv ^ r.interval_bytes_recv;
    r.highest_counter
        ^ r.cumulative_packets_recv
        ^ r.cumulative_bytes_recv
        ^ u64::from(halves)
        ^ u64::from(delays)
        ^ u64::from(intervals)
}

// What the call adds to the checksum beside the byte of the output.
fn called(call: u64, x: u64, payload: &[u8], out: &mut [u8]) -> u64 {
    match call {
        201 => refusal_of(sender_of(x).encode(out)),
        202 => SenderReport::decode(payload).map_or(0, sender_sum),
        203 => refusal_of(receiver_of(x).encode(out)),
        204 => ReceiverReport::decode(payload).map_or(0, receiver_sum),
        206 => refusal_of(PathMtuNotification::new(u16_of(x)).encode(out)),
        207 => PathMtuNotification::decode(payload).map_or(0, |p| u64::from(p.path_mtu)),
        _ => 0,
    }
}

// How many bytes the call writes; for the others, the whole output.
fn written(call: u64) -> u64 {
    match call {
        201 => 48,
        206 => 2,
        _ => 68,
    }
}

pub fn turn(call: u64, x: u64, payload: &mut [u8], out: &mut [u8]) -> u64 {
    store(payload, picked(x, 67), (x >> 56) as u8);
    let part = called(call, x, payload, out);
    part.wrapping_add(u64::from(at(out, picked(x, written(call)))))
}
