// Calls on a sender's record: eight peers' records in memory, of which the random number picks one.
ghost use Rattle.std.specs.Prelude.{◌<◌};

use crate::calls::sender_sum;
use crate::table::{settled, u32_of};
use sender::SenderState;

fn state_sum(r: SenderState) -> u64 {
    let words = r.interval_start_timestamp
        ^ r.interval_bytes_sent
        ^ r.last_timestamp
        ^ r.consecutive_send_failures
        ^ r.srtt_sample_count;
    r.cumulative_packets_sent
        ^ r.cumulative_bytes_sent
        ^ r.last_counter
        ^ r.interval_start_counter
        ^ u64::from(words)
        ^ r.last_report_ms
        ^ r.report_interval_ms
        ^ u64::from(r.interval_has_data)
        ^ u64::from(r.has_last_report)
}

pub fn states_sum(states: &[SenderState]) -> u64 {
    states
        .iter()
        .fold(0, |sum, state| sum.wrapping_add(state_sum(*state)))
}

// A frame's size, which the compiler cannot know to be in range: it is 2^32 once in 2^32 turns.
fn size_of(x: u64) -> usize {
    (x % ((1 << 32) + 1)) as usize
}

// Which peer's record a turn is about.
fn slot(x: u64) -> usize
    ensures { result < 8 }
{
    (x % 8) as usize
}

// A frame sent, and a report built: its sum. Where the report is refused the record stays.
fn sent_and_built(state: &mut SenderState, x: u64, bytes: usize) -> u64 {
    let sent = settled(state.record_sent(x, u32_of(x), bytes));
    let Ok((after, report)) = sent.build_report(x >> 20) else {
        return 0;
    };
    *state = after;
    report.map_or(0, |report| sender_sum(report) ^ 1)
}

// 400, the loop alone; 404, a frame sent; 405, a frame sent and a report built.
pub fn turn(call: u64, x: u64, states: &mut [SenderState; 8]) -> u64 {
    let bytes = size_of(x);
    let state = &mut states[slot(x)];
    let built = match call {
        404 => {
            if let Ok(after) = state.record_sent(x, u32_of(x), bytes) {
                *state = after;
            }
            0
        }
        405 => sent_and_built(state, x, bytes),
        _ => 0,
    };
    built.wrapping_add(bytes as u64)
}
