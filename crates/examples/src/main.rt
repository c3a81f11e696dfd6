// The worked examples of document 01, "Promises and the checked examples", and more, run and compared. A line for each: ok or WRONG, what it is, what came out.
//
// An input and what the rules say of it are written as numbers here, and not taken from the code that is tried: a wrong bound there would move its own example.

#![tactic(auto)]

mod averages;
mod bursts;
mod delays;
mod estimators;
mod floats_shown;
mod lateness;
mod lines;
mod link;
mod processing;
mod questions_shown;
mod receiving;
mod reports;
mod sending;

use lines::{Lines, Shown};
use std::io;
use std::io::{BufWriter, Write};

fn examples(out: &mut impl Lines) -> Shown {
    out.heading("averages")?;
    averages::jitter(out)?;
    averages::round_trip(out)?;
    averages::below_the_average(out)?;
    out.heading("questions")?;
    questions_shown::ranges(out)?;
    questions_shown::order(out)?;
    out.heading("floats")?;
    floats_shown::casts(out)?;
    floats_shown::steps(out)?;
    out.heading("estimators")?;
    estimators::jitter(out)?;
    estimators::round_trip(out)?;
    estimators::trends(out)?;
    estimators::etx(out)?;
    out.heading("delays")?;
    delays::trend(out)?;
    delays::capacity(out)?;
    delays::too_wide(out)?;
    delays::spin(out)?;
    out.heading("bursts")?;
    bursts::two_bursts(out)?;
    bursts::one_burst(out)?;
    bursts::long_outage(out)?;
    bursts::long_gap_begins(out)?;
    bursts::long_gap_extends(out)?;
    bursts::longest_gap(out)?;
    bursts::full_count(out)?;
    out.heading("lateness")?;
    lateness::four_cases(out)?;
    lateness::last_counter(out)?;
    lateness::greatest(out)?;
    lateness::rekey(out)?;
    lateness::no_report(out)?;
    out.heading("reports")?;
    reports::sender(out)?;
    reports::receiver(out)?;
    reports::path_mtu(out)?;
    reports::in_place(out)?;
    reports::least_trend(out)?;
    reports::no_room(out)?;
    reports::too_short(out)?;
    out.heading("sending")?;
    sending::failures(out)?;
    sending::report(out)?;
    sending::intervals(out)?;
    out.heading("receiving")?;
    receiving::grace(out)?;
    receiving::dwell(out)?;
    receiving::counters(out)?;
    receiving::outage(out)?;
    receiving::late_frame(out)?;
    receiving::wrapped_timestamp(out)?;
    receiving::restart(out)?;
    receiving::saturated(out)?;
    receiving::windows(out)?;
    receiving::large_window(out)?;
    receiving::wide_window(out)?;
    receiving::refused_frames(out)?;
    receiving::refused_reports(out)?;
    out.heading("metrics")?;
    processing::round_trips(out)?;
    processing::stale(out)?;
    processing::delivery(out)?;
    processing::refused(out)?;
    processing::kinds(out)
}

fn main(rt: HostRuntime) -> Shown {
    let mut out = BufWriter::new(rt.alloc(), io::writer(&rt))?;
    examples(&mut out)?;
    out.flush()?;
    Ok(())
}
