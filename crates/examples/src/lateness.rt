// Document 02, W-203: where a frame stands, and how late the latest of an interval was.
use crate::bursts::lost_at;
use crate::lines::{Lines, Shown, Stop};
use crate::link::Link;
use gaps::{Arrival, GapTracker};
use receiver::ReceiverState;

// A tracker of a link without bursts that expects this counter.
fn due(counter: u64) -> GapTracker {
    GapTracker {
        expected_next: Some(counter),
        in_burst: false,
        current_burst_len: 0,
        burst_count: 0,
        max_burst_len: 0,
        total_burst_len: 0,
    }
}

// How a frame of this counter comes: its case by number, from `First` on, since a line shows a number.
fn case_of(t: GapTracker, counter: u64) -> Result<u64, Stop> {
    let (_, arrival) = t.observe(counter)?;
    Ok(match arrival {
        Arrival::First => 0,
        Arrival::InSequence => 1,
        Arrival::Gap(_) => 2,
        Arrival::Behind(_) => 3,
    })
}

// By how many frames: those missing, or how far behind.
fn frames_of(t: GapTracker, counter: u64) -> Result<u64, Stop> {
    let (_, arrival) = t.observe(counter)?;
    Ok(match arrival {
        Arrival::First | Arrival::InSequence => 0,
        Arrival::Gap(frames) | Arrival::Behind(frames) => frames,
    })
}

pub fn four_cases(out: &mut impl Lines) -> Shown {
    let new = GapTracker::new();
    let t = due(6);
    out.number("a new tracker, counter 7: first", case_of(new, 7)?, 0)?;
    out.number("6 is due, 6 comes: in sequence", case_of(t, 6)?, 1)?;
    out.number("6 is due, 9 comes: a gap", case_of(t, 9)?, 2)?;
    out.number("its frames", frames_of(t, 9)?, 3)?;
    // The commit's number.
    out.number("its lost", lost_at(t, 9)?, 3)?;
    out.number("6 is due, 5 comes again: behind", case_of(t, 5)?, 3)?;
    out.number("by", frames_of(t, 5)?, 1)?;
    out.number("its lost", lost_at(t, 5)?, 0)?;
    out.number("6 is due, 0 comes: behind", case_of(t, 0)?, 3)?;
    out.number("by", frames_of(t, 0)?, 6)
}

// The expected counter saturates.
pub fn last_counter(out: &mut impl Lines) -> Shown {
    let t = due(u64::MAX);
    out.number("2^64 - 1 again: in sequence", case_of(t, u64::MAX)?, 1)?;
    out.number("2^64 - 1 is due, 0 comes: behind", case_of(t, 0)?, 3)?;
    out.number("by", frames_of(t, 0)?, u64::MAX)?;
    out.number(
        "65537 is due, 0 comes: behind by",
        frames_of(due(65537), 0)?,
        65537,
    )
}

impl Link {
    // A sampled frame of this counter.
    fn comes(&mut self, counter: u64) -> Shown {
        self.frame(counter, 500, 1000, true)
    }

    fn lateness(self) -> Result<u64, Stop> {
        Ok(self.state.interval_max_lateness()?)
    }
}

// Counters 9, 5, 7: 10 is expected, and the latest comes behind by 5.
pub fn greatest(out: &mut impl Lines) -> Shown {
    let mut link = Link::new();
    link.comes(9)?;
    out.number("a receiver, counter 9: lateness", link.lateness()?, 0)?;
    link.comes(5)?;
    out.number("then 5: lateness", link.lateness()?, 5)?;
    link.comes(7)?;
    out.number("then 7: lateness", link.lateness()?, 5)?;
    link.frame(1, 500, 1000, false)?;
    out.number("then 1, not sampled: lateness", link.lateness()?, 9)?;
    let (reported, report) = link.build_report(2000)?;
    out.holds("a report is made", report.is_some())?;
    link.state = reported;
    out.number("after it: lateness", link.lateness()?, 0)?;
    link.comes(9)?;
    out.number("then 9 again: lateness", link.lateness()?, 1)?;
    out.number("and reorders", link.state.cumulative_reorder_count, 3)
}

// A rekey at 1000 zeroes it, and the first frame after it is first; then frames in grace.
pub fn rekey(out: &mut impl Lines) -> Shown {
    let mut link = Link::new();
    link.comes(9)?;
    link.comes(5)?;
    let too_late = link.state.reset_for_rekey(1 << 48);
    let same = out.given_back("a rekey refused by", too_late, 2)?;
    out.number("after it: lateness", same.interval_max_lateness()?, 5)?;
    link.state = link.state.reset_for_rekey(1000)?;
    out.number("a rekey: lateness", link.lateness()?, 0)?;
    link.comes(3)?;
    out.number("then 3: lateness", link.lateness()?, 0)?;
    link.comes(1)?;
    out.number("then 1, in grace: lateness", link.lateness()?, 3)
}

// A build that makes no report leaves it.
pub fn no_report(out: &mut impl Lines) -> Shown {
    let mut link = Link::new();
    link.state.interval_max_lateness = 5;
    let (unmoved, report) = link.build_report(2000)?;
    out.holds("lateness 5 and no data: no report", report.is_none())?;
    out.number("after it: lateness", unmoved.interval_max_lateness()?, 5)?;
    link.state.interval_has_data = true;
    let too_late = link.build_report(1 << 48).map(|(state, _)| state);
    let same = out.given_back("a report refused by", too_late, 2)?;
    out.number("after it: lateness", same.interval_max_lateness()?, 5)?;
    let mut s = ReceiverState {
        interval_max_lateness: u64::MAX,
        ..link.state
    };
    out.holds("lateness 2^64 - 1: keeps the rule", s.keeps_rule())?;
    s.owd_trend.capacity = 1;
    out.refusal(
        "a window of 1: the lateness is refused by",
        s.interval_max_lateness(),
        1,
    )
}
