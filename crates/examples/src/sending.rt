// The sender's state: reports, failures and intervals.
use crate::lines::{Lines, Shown, Stop};
use sender::SenderState;

// 5 and 6 failures: times 32 and 32.
pub fn failures(out: &mut impl Lines) -> Shown {
    let mut s = SenderState::new();
    out.holds(
        "no failure: times 1",
        s.send_failure_backoff_multiplier()? == 1.0,
    )?;
    for failures in [5, 6] {
        s.consecutive_send_failures = failures;
        out.holds(
            format_args!("{failures} failures: times 32"),
            s.send_failure_backoff_multiplier()? == 32.0,
        )?;
    }
    s.consecutive_send_failures = u32::MAX;
    out.refusal(
        "a failure more than the counter holds",
        s.record_send_failure(),
        10,
    )
}

// Two frames, a report, and then none for want of data.
pub fn report(out: &mut impl Lines) -> Shown {
    let sent = SenderState::new()
        .record_sent(10, 100, 500)?
        .record_sent(11, 200, 600)?;
    let (reported, report) = sent.build_report(1000)?;
    out.holds("a report is built", report.is_some())?;
    let report = report.ok_or(Stop::Unruly)?;
    out.number("its start counter", report.interval_start_counter, 10)?;
    out.number("its end counter", report.interval_end_counter, 11)?;
    out.number("its bytes", report.interval_bytes_sent, 1100)?;
    let again = reported.build_report(2000);
    let second = again.map_or(None, |(_, report)| report);
    out.holds("no second report for want of data", second.is_none())?;
    out.refusal("and no refusal", again, 0)?;
    out.refusal(
        "a frame of 2^32 bytes",
        reported.record_sent(12, 300, 1 << 32),
        3,
    )
}

// The floor is 200 ms for five updates, then 1,000.
pub fn intervals(out: &mut impl Lines) -> Shown {
    let four = SenderState {
        srtt_sample_count: 4,
        ..SenderState::new()
    };
    let five = four.update_report_interval_from_srtt(3000)?;
    out.number(
        "interval after the fifth update",
        five.report_interval_ms,
        200,
    )?;
    let six = five.update_report_interval_from_srtt(3000)?;
    out.number("interval after the sixth", six.report_interval_ms, 1000)?;
    out.refusal(
        "a lower bound above the upper",
        six.update_report_interval_with_bounds(3000, 2, 1),
        9,
    )?;
    out.refusal(
        "the same of no round trip yet",
        six.update_report_interval_with_bounds(0, 2, 1),
        0,
    )
}
