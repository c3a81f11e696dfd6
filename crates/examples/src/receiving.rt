// The receiver's state: grace after a rekey, the echo, wrapped timestamps, the delay window's restart, and refusals.
use crate::lines::{Lines, Shown, Stop};
use crate::link::Link;
use receiver::ReceiverState;
use wire::receiver_report::ReceiverReport;

// Rekey 10000, sample 24999 / 25000: in grace / out. The echo moves in grace too.
pub fn grace(out: &mut impl Lines) -> Shown {
    let mut link = Link::new();
    link.state = link.state.reset_for_rekey(10000)?;
    link.sampled(1, 500, 24999)?;
    out.number(
        "rekey at 10000, sample at 24999: live pairs",
        link.state.owd_trend.count as u64,
        0,
    )?;
    out.number(
        "its timestamp is the echo",
        link.state.last_sender_timestamp,
        500,
    )?;
    let until_ms = link.state.rekey_jitter_grace_until_ms;
    out.number("grace until", until_ms.unwrap_or(77), 25000)?;
    link.sampled(2, 510, 25000)?;
    out.number(
        "sample at 25000: live pairs",
        link.state.owd_trend.count as u64,
        1,
    )?;
    let until_ms = link.state.rekey_jitter_grace_until_ms;
    out.number("no grace any more", until_ms.unwrap_or(77), 77)
}

// Dwell 65535 / 65536: echo kept / echo 0, dwell 65535.
pub fn dwell(out: &mut impl Lines) -> Shown {
    let mut link = Link::new();
    link.sampled(0, 500, 1000)?;
    let kept = link.report(66535)?;
    out.number("dwell 65535: echo", kept.timestamp_echo, 500)?;
    out.number("dwell 65535: dwell", kept.dwell_time, 65535)?;
    let dropped = link.report(66536)?;
    out.number("dwell 65536: echo", dropped.timestamp_echo, 0)?;
    out.number("dwell 65536: dwell", dropped.dwell_time, 65535)
}

// A receiver after frames of these counters, none of them sampled.
fn counted(counters: &[u64]) -> Result<Link, Stop> {
    let mut link = Link::new();
    for counter in counters {
        link.frame(*counter, 0, 0, false)?;
    }
    Ok(link)
}

// The bursts as a report says them, after a line that says of what.
fn bursts(
    out: &mut impl Lines,
    name: &str,
    report: ReceiverReport,
    count: u64,
    max: u64,
    mean: u64,
) -> Shown {
    out.number(
        format_args!("{name} in a report: bursts"),
        report.burst_loss_count,
        count,
    )?;
    out.number("max", report.max_burst_loss, max)?;
    out.number("mean", report.mean_burst_loss, mean)
}

// Counters 0, 4, 5, 9, as a report says them.
pub fn counters(out: &mut impl Lines) -> Shown {
    let report = counted(&[0, 4, 5, 9])?.report(1010)?;
    bursts(out, "counters 0, 4, 5, 9", report, 2, 3, 768)?;
    out.number("highest", report.highest_counter, 9)?;
    out.number("packets", report.cumulative_packets_recv, 4)
}

// A mast is down for 65537 frames: a report does not tell a burst of 1.
pub fn outage(out: &mut impl Lines) -> Shown {
    let report = counted(&[0, 65538])?.report(1010)?;
    bursts(out, "65537 frames lost,", report, 1, 65535, 65535)
}

// A counter below the highest is late.
pub fn late_frame(out: &mut impl Lines) -> Shown {
    let late = counted(&[0, 4, 5, 9, 3])?.state;
    out.number(
        "counter 3 after 9: reorders",
        late.cumulative_reorder_count,
        1,
    )
}

// A timestamp that wraps from 2^32 − 10 to 10 is 20 ms later: in 25 ms, D is 5 ms.
pub fn wrapped_timestamp(out: &mut impl Lines) -> Shown {
    let mut link = Link::new();
    link.sampled(0, u32::MAX - 9, 1000)?;
    link.sampled(1, 10, 1025)?;
    out.number(
        "a wrapped timestamp, D 5000: jitter",
        link.state.jitter_us()?,
        312,
    )?;
    out.holds("its time in the window is 25", link.times[1] == 25)?;
    out.holds("its delay in the window is 5000", link.delays[1] == 5000)
}

// An age of 2^30 ms clears the window; one less does not.
pub fn restart(out: &mut impl Lines) -> Shown {
    let mut link = Link::new();
    link.sampled(0, 0, 0)?;
    link.sampled(1, 5, (1 << 30) - 1)?;
    out.number(
        "age 2^30 - 1 ms: live pairs",
        link.state.owd_trend.count as u64,
        2,
    )?;
    link.sampled(2, 6, 1 << 30)?;
    out.number(
        "age 2^30 ms: live pairs",
        link.state.owd_trend.count as u64,
        1,
    )
}

// More reorders than 32 bits hold.
pub fn saturated(out: &mut impl Lines) -> Shown {
    let mut link = Link::new();
    link.state.cumulative_packets_recv = 1 << 33;
    link.state.cumulative_reorder_count = (1 << 32) + 5;
    link.state.interval_has_data = true;
    out.number(
        "2^32 + 5 reorders in a report",
        link.report(0)?.cumulative_reorder_count,
        u64::from(u32::MAX),
    )
}

// A receiver's window by both constructors.
fn window_of(out: &mut impl Lines, name: &str, size: usize, capacity: u64) -> Shown {
    let new = ReceiverState::new(size);
    out.number(
        format_args!("a receiver's window of {name}: capacity"),
        new.owd_trend.capacity as u64,
        capacity,
    )?;
    let cold = ReceiverState::new_with_cold_start(size, 500)?;
    out.number(
        "the same with a cold start: capacity",
        cold.owd_trend.capacity as u64,
        capacity,
    )
}

// A size that is asked for is clamped to 2 to 256.
pub fn windows(out: &mut impl Lines) -> Shown {
    window_of(out, "0", 0, 2)?;
    window_of(out, "1", 1, 2)?;
    window_of(out, "256", 256, 256)?;
    window_of(out, "257", 257, 256)?;
    window_of(out, "2^64 - 1", usize::MAX, 256)
}

// A window that was asked for as 4,096 is one of 256: buffers of 4,096 are not its.
pub fn large_window(out: &mut impl Lines) -> Shown {
    window_of(out, "4096", 4096, 256)?;
    let mut times = [0; 4096];
    let mut delays = [0; 4096];
    let s = ReceiverState::new(4096);
    out.refusal(
        "a frame with buffers of 4096",
        s.record_recv(&mut times, &mut delays, 0, 0, 100, false, 0),
        4,
    )?;
    out.refusal(
        "a report with buffers of 4096",
        s.build_report(&times, &delays, 0),
        4,
    )
}

// A state with a wider window breaks the rule, though the buffers are as long as it.
pub fn wide_window(out: &mut impl Lines) -> Shown {
    let mut times = [0; 257];
    let mut delays = [0; 257];
    let mut s = ReceiverState::new(257);
    s.owd_trend.capacity = 257;
    out.refusal(
        "capacity 257, buffers of 257: a frame",
        s.record_recv(&mut times, &mut delays, 0, 0, 100, false, 0),
        1,
    )?;
    out.refusal(
        "capacity 257, buffers of 257: a report",
        s.build_report(&times, &delays, 0),
        1,
    )?;
    out.refusal("capacity 257: a rekey", s.reset_for_rekey(0), 1)
}

// Refusals by 1, 2 and 3, and by 10 of a full counter.
pub fn refused_frames(out: &mut impl Lines) -> Shown {
    let mut times = [0; 2];
    let mut delays = [0; 2];
    let s = ReceiverState::new(2);
    out.refusal("rekey at 2^48", s.reset_for_rekey(1 << 48), 2)?;
    out.refusal(
        "a frame received of 2^32 bytes",
        s.record_recv(&mut times, &mut delays, 0, 0, 1 << 32, false, 0),
        3,
    )?;
    let full = ReceiverState {
        cumulative_packets_recv: u64::MAX,
        ..s
    };
    out.refusal(
        "a frame more than the lifetime's counter holds",
        full.record_recv(&mut times, &mut delays, 0, 0, 100, false, 0),
        10,
    )?;
    let uneven = ReceiverState {
        cumulative_packets_recv: 0,
        cumulative_reorder_count: 1,
        ..s
    };
    out.refusal("more reorders than frames", uneven.should_send_report(0), 1)
}

// Refusals by 4 and 5: the windows of a report.
pub fn refused_reports(out: &mut impl Lines) -> Shown {
    let times = [0; 2];
    let delays = [(1 << 42) + 1; 2];
    let mut s = ReceiverState::new(2);
    out.refusal("a time window of 3", s.build_report(&[0; 3], &delays, 0), 4)?;
    out.refusal(
        "a dead sample past 2^42",
        s.build_report(&times, &delays, 0),
        0,
    )?;
    s.owd_trend.count = 1;
    out.refusal(
        "a live sample past 2^42",
        s.build_report(&times, &delays, 0),
        5,
    )
}
