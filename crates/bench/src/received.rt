// Calls on a receiver's record: a record of the table with a full window of 32 pairs, the call, and the sum of all that it answered.
use crate::calls::receiver_sum;
use crate::table::{Fields, refusal_of, store_drawn, u16_of, u32_of};
use algorithms::jitter::JitterEstimator;
use algorithms::owd::OwdTrendDetector;
use gaps::GapTracker;
use receiver::ReceiverState;
use refusals::refusal::Refused;
use samples::delay::OwdBase;

// Above every highest counter.
const ABOVE: u64 = 1 << 36;

impl<'a> Fields<'a, u64> {
    // A full window whose oldest pair stands a third from its start.
    fn window(&self) -> OwdTrendDetector {
        OwdTrendDetector {
            capacity: self.held(0, 32) as usize,
            count: self.held(1, 32) as usize,
            first: self.held(2, 10) as usize,
        }
    }

    fn expected(&self) -> u64 {
        self.at(8) | ABOVE
    }

    // One record in 64 is in a burst.
    fn tracker(&self, x: u64) -> GapTracker {
        GapTracker {
            expected_next: self.is_set(3).then_some(self.expected()),
            in_burst: x >> 58 == 0,
            current_burst_len: u16_of(self.held(4, 0)),
            burst_count: u32_of(self.held(5, 7)),
            max_burst_len: u16_of(self.at(6)),
            total_burst_len: self.at(7) >> 20,
        }
    }

    fn receiver(&self, x: u64) -> ReceiverState {
        ReceiverState {
            cumulative_packets_recv: self.at(19) | ABOVE,
            cumulative_bytes_recv: self.at(20),
            cumulative_reorder_count: self.at(21),
            highest_counter: self.at(22),
            interval_packets_recv: self.word(23),
            interval_bytes_recv: self.word(24),
            jitter: JitterEstimator {
                jitter_q4: self.at(9).cast_signed(),
            },
            owd_trend: self.window(),
            owd_ref: self.is_set(10).then_some(OwdBase {
                recv_ms: self.at(11),
                sender_timestamp: self.word(12),
            }),
            gap_tracker: self.tracker(x),
            ecn_ce_count: self.word(25),
            last_sender_timestamp: self.word(26),
            last_recv_ms: self.is_set(13).then_some(self.at(14)),
            rekey_jitter_grace_until_ms: (!self.is_set(15)).then_some(self.at(16)),
            last_report_ms: self.is_set(17).then_some(self.at(18)),
            report_interval_ms: self.at(27),
            interval_has_data: self.is_set(28),
            srtt_sample_count: self.word(29),
            interval_max_lateness: self.held(31, 0),
        }
    }
}

fn window_sum(w: OwdTrendDetector) -> u64 {
    (w.capacity ^ w.count ^ w.first) as u64
}

fn reference_sum(owd_ref: Option<OwdBase>) -> u64 {
    owd_ref.map_or(1, |base| base.recv_ms ^ u64::from(base.sender_timestamp))
}

fn tracker_sum(t: GapTracker) -> u64 {
    t.expected_next.unwrap_or(1)
        ^ u64::from(t.in_burst)
        ^ u64::from(t.current_burst_len ^ t.max_burst_len)
        ^ u64::from(t.burst_count)
        ^ t.total_burst_len
}

fn state_sum(r: ReceiverState) -> u64 {
    let words = r.interval_packets_recv
        ^ r.interval_bytes_recv
        ^ r.ecn_ce_count
        ^ r.last_sender_timestamp
        ^ r.srtt_sample_count;
    let times = r.last_recv_ms.unwrap_or(1)
        ^ r.rekey_jitter_grace_until_ms.unwrap_or(1)
        ^ r.last_report_ms.unwrap_or(1)
        ^ r.report_interval_ms;
    let figures = r.jitter.jitter_q4.cast_unsigned()
        ^ window_sum(r.owd_trend)
        ^ reference_sum(r.owd_ref)
        ^ tracker_sum(r.gap_tracker);
    r.cumulative_packets_recv
        ^ r.cumulative_bytes_recv
        ^ r.cumulative_reorder_count
        ^ r.highest_counter
        ^ r.interval_max_lateness
        ^ u64::from(words)
        ^ times
        ^ figures
        ^ u64::from(r.interval_has_data)
}

fn refused_sum(refused: Refused<ReceiverState>) -> u64 {
    state_sum(refused.state) ^ refusal_of(Err(refused.refusal))
}

// A frame in order, one in 16 a counter ahead, less than 2^24 ms after the reference.
fn record_frame(
    call: u64,
    x: u64,
    state: ReceiverState,
    fields: Fields<u64>,
    times: &mut [u32],
    delays: &mut [i64],
) -> u64 {
    let ahead = u64::from(x >> 60 == 0);
    state
        .record_frame(
            times,
            delays,
            fields.expected().wrapping_add(ahead),
            u32_of(x),
            fields.held(30, x >> 48) as usize,
            x % 2 == 1,
            fields.at(11).wrapping_add(x >> 40),
            fields.is_set(30) == (call == 504),
        )
        .map_or_else(refused_sum, state_sum)
}

fn build_report(state: ReceiverState, now_ms: u64, times: &[u32], delays: &[i64]) -> u64 {
    match state.build_report(times, delays, now_ms) {
        Ok((after, Some(report))) => state_sum(after) ^ receiver_sum(report) ^ 1,
        Ok((after, None)) => state_sum(after),
        Err(refused) => refused_sum(refused),
    }
}

pub fn turn(call: u64, x: u64, numbers: &mut [u64], times: &mut [u32], delays: &mut [i64]) -> u64 {
    store_drawn(x, numbers, times, delays);
    let fields = Fields::picked(numbers, x);
    let state = fields.receiver(x);
    match call {
        504 | 1504 => record_frame(call, x, state, fields, times, delays),
        507 => build_report(state, fields.at(30), times, delays),
        _ => state_sum(state) ^ fields.at(30),
    }
}
