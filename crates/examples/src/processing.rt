// The metrics: round trips, stale reports, delivery, a rekey, and refusals.
use crate::lines::{Lines, Shown, Stop};
use metrics::{MmpMetrics, RrLog};
use wire::receiver_report::{ReceiverReport, no_report};

// A report of so many frames sent and received, with an echo and a dwell.
fn report(highest: u64, packets: u64, echo: u32, dwell: u16) -> ReceiverReport {
    ReceiverReport {
        highest_counter: highest,
        cumulative_packets_recv: packets,
        timestamp_echo: echo,
        dwell_time: dwell,
        ..no_report()
    }
}

// The metrics after a report.
fn after(m: MmpMetrics, rr: ReceiverReport, ours: u32, now_ms: u64) -> Result<MmpMetrics, Stop> {
    let (after, _) = m.process_receiver_report(rr, ours, now_ms)?;
    Ok(after)
}

// Echo 1000, dwell 20, ours 1030 / 1020 / 1019: 10 ms / zero / arithmetic failure.
pub fn round_trips(out: &mut impl Lines) -> Shown {
    let rr = report(1, 1, 1000, 20);
    let m = MmpMetrics::new();
    let sample = after(m, rr, 1030, 0)?;
    out.number("ours 1030: samples", sample.rtt_samples()?, 1)?;
    out.holds("ours 1030: SRTT is 10 ms", sample.srtt.srtt_us == 10000)?;
    let zero = after(m, rr, 1020, 0)?;
    out.number("ours 1020: zeros", zero.rtt_zero()?, 1)?;
    let failure = after(m, rr, 1019, 0)?;
    out.number(
        "ours 1019: arithmetic failures",
        failure.rtt_arith_fail()?,
        1,
    )
}

fn says_stale(log: RrLog) -> bool {
    matches!(log, RrLog::Stale { .. })
}

// Whether the entry is a sample of so many ms beside this SRTT.
fn says_sample(log: RrLog, ms: u32, before: f64) -> bool {
    matches!(log, RrLog::RttSample { rtt_ms, srtt_ms } if rtt_ms == ms && srtt_ms == before)
}

// A first report is never stale; the same again is, is counted, and moves nothing else.
pub fn stale(out: &mut impl Lines) -> Shown {
    let rr = report(1, 1, 1000, 20);
    let (one, told) = MmpMetrics::new().process_receiver_report(rr, 1030, 0)?;
    out.number("a first report is stale", says_stale(told.log), 0)?;
    out.holds("SRTT has just become known", told.first_srtt)?;
    let (two, told) = one.process_receiver_report(rr, 1099, 500)?;
    out.number("the same again is stale", says_stale(told.log), 1)?;
    out.number("reports seen", two.reports_seen()?, 2)?;
    out.number("samples still", two.rtt_samples()?, 1)?;
    let (_, told) = two.process_receiver_report(report(2, 2, 1000, 20), 1038, 500)?;
    out.holds(
        "a sample of 18 ms is logged beside the 10 ms before it",
        says_sample(told.log, 18, 10.0),
    )
}

// 5 of 10 frames: ratio 0.5, ETX 2. A rekey sets the ratio to 1, and leaves ETX.
pub fn delivery(out: &mut impl Lines) -> Shown {
    let one = after(MmpMetrics::new(), report(10, 10, 0, 0), 0, 0)?;
    let two = after(one, report(20, 15, 0, 0), 0, 1000)?;
    out.holds(
        "5 of 10 frames: ratio 0.5",
        two.delivery_ratio_forward == 0.5,
    )?;
    out.holds("5 of 10 frames: loss 0.5", two.loss_rate()? == 0.5)?;
    out.holds("5 of 10 frames: ETX 2", two.etx == 2.0)?;
    let rekeyed = two.reset_for_rekey()?;
    out.holds(
        "after a rekey: ratio 1",
        rekeyed.delivery_ratio_forward == 1.0,
    )?;
    out.holds("after a rekey: ETX 2 still", rekeyed.etx == 2.0)?;
    out.holds("after a rekey: no report kept", !rekeyed.has_prev_rr)
}

pub fn refused(out: &mut impl Lines) -> Shown {
    let rr = report(1, 1, 0, 0);
    let m = MmpMetrics::new();
    out.refusal(
        "a report at clock 2^48",
        m.process_receiver_report(rr, 0, 1 << 48),
        2,
    )?;
    let full = MmpMetrics {
        reports_seen: u64::MAX,
        stale_reports: u64::MAX,
        ..m
    };
    out.refusal(
        "a report more than the counter holds",
        full.process_receiver_report(rr, 0, 0),
        10,
    )?;
    let broken = MmpMetrics { etx: 0.5, ..m };
    out.refusal(
        "a report to metrics with ETX 0.5",
        broken.process_receiver_report(rr, 0, 0),
        1,
    )?;
    let uneven = MmpMetrics { rtt_zero: 1, ..m };
    out.refusal(
        "a question to metrics with more zeros than reports",
        uneven.reports_seen(),
        1,
    )?;
    let untold = MmpMetrics {
        reports_seen: 1,
        ..m
    };
    out.refusal(
        "a question to metrics with a report of no kind",
        untold.stale_reports(),
        1,
    )?;
    let wrapped = MmpMetrics {
        stale_reports: 1 << 63,
        no_echo_reports: 1 << 63,
        ..m
    };
    out.refusal(
        "a question to metrics whose kinds add up to 2^64, with no report seen",
        wrapped.no_echo_reports(),
        1,
    )?;
    let last = MmpMetrics {
        reports_seen: u64::MAX - 1,
        rtt_arith_fail: u64::MAX - 1,
        ..m
    };
    out.refusal(
        "the last report that the counter holds",
        last.process_receiver_report(rr, 0, 0),
        0,
    )
}

// A report without an echo, the same again, then a rekey and it once more: no kind is cleared.
pub fn kinds(out: &mut impl Lines) -> Shown {
    let m = MmpMetrics::new();
    out.number("new: stale reports", m.stale_reports()?, 0)?;
    out.number("new: reports without an echo", m.no_echo_reports()?, 0)?;
    let rr = report(1, 1, 0, 0);
    let twice = after(after(m, rr, 0, 0)?, rr, 0, 0)?;
    out.number("no echo twice: seen", twice.reports_seen()?, 2)?;
    out.number("no echo twice: no echo", twice.no_echo_reports()?, 1)?;
    out.number("no echo twice: stale", twice.stale_reports()?, 1)?;
    let thrice = after(twice.reset_for_rekey()?, rr, 0, 0)?;
    out.number(
        "after a rekey, once more: no echo",
        thrice.no_echo_reports()?,
        2,
    )?;
    out.number(
        "after a rekey, once more: stale",
        thrice.stale_reports()?,
        1,
    )
}
