// The table of document 01, "Promises and the checked examples": the rows of the counters, one of them as document 02, W-201, has it; and gaps about 65535.
use crate::lines::{Lines, Shown, Stop};
use gaps::{GapTracker, lost_before};

// The greatest length of a burst.
const LONGEST: u64 = 65535;

// The tracker after frames of these counters.
fn after(mut tracker: GapTracker, counters: &[u64]) -> Result<GapTracker, Stop> {
    for counter in counters {
        (tracker, _) = tracker.observe(*counter)?;
    }
    Ok(tracker)
}

// The frames lost before a frame of this counter.
pub fn lost_at(tracker: GapTracker, counter: u64) -> Result<u64, Stop> {
    let (_, arrival) = tracker.observe(counter)?;
    Ok(lost_before(arrival))
}

// The length of the burst after a frame of this counter.
fn length_after(tracker: GapTracker, counter: u64) -> Result<u16, Stop> {
    let (after, _) = tracker.observe(counter)?;
    Ok(after.current_burst_len)
}

// The bursts of an interval: how many, the longest, and the mean in 1/256 of a frame.
fn interval(
    out: &mut impl Lines,
    name: &str,
    counters: &[u64],
    count: u64,
    max: u64,
    mean: u64,
) -> Shown {
    let (_, stats) = after(GapTracker::new(), counters)?.take_interval_stats()?;
    out.number(format_args!("counters {name}: bursts"), stats.count, count)?;
    out.number(format_args!("counters {name}: max"), stats.max, max)?;
    out.number(format_args!("counters {name}: mean"), stats.mean, mean)
}

pub fn two_bursts(out: &mut impl Lines) -> Shown {
    interval(out, "0, 4, 5, 9", &[0, 4, 5, 9], 2, 3, 768)
}

pub fn one_burst(out: &mut impl Lines) -> Shown {
    interval(out, "0, 2, 4", &[0, 2, 4], 1, 2, 512)
}

pub fn long_outage(out: &mut impl Lines) -> Shown {
    interval(out, "0, 65537", &[0, 65537], 1, 65535, 65535)
}

// Document 02, W-201: a gap counts fully and stops at 65535. Here it begins a burst: counter 1 is due.
pub fn long_gap_begins(out: &mut impl Lines) -> Shown {
    let t = after(GapTracker::new(), &[0])?;
    for gap in 65534..65538u64 {
        out.number(
            format_args!("begun by a gap of {gap}: length"),
            length_after(t, 1 + gap)?,
            gap.min(LONGEST),
        )?;
    }
    for gap in 65535..65538u64 {
        out.number(
            format_args!("a gap of {gap}: lost"),
            lost_at(t, 1 + gap)?,
            gap,
        )?;
    }
    Ok(())
}

// And here it extends a burst of 1: counter 3 is expected.
pub fn long_gap_extends(out: &mut impl Lines) -> Shown {
    let t = after(GapTracker::new(), &[0, 2])?;
    for gap in 65533..65538u64 {
        out.number(
            format_args!("1 and a gap of {gap}: length"),
            length_after(t, 3 + gap)?,
            (1 + gap).min(LONGEST),
        )?;
    }
    out.number("1 and a gap of 65537: lost", lost_at(t, 65540)?, 65537)
}

// The greatest gap of all, in a burst of 1: counter 0 is expected, and the last one comes.
pub fn longest_gap(out: &mut impl Lines) -> Shown {
    let t = GapTracker {
        expected_next: Some(0),
        in_burst: true,
        current_burst_len: 1,
        burst_count: 1,
        max_burst_len: 0,
        total_burst_len: 0,
    };
    out.number(
        "1 and a gap of 2^64 - 1: length",
        length_after(t, u64::MAX)?,
        LONGEST,
    )?;
    out.number(
        "1 and a gap of 2^64 - 1: lost",
        lost_at(t, u64::MAX)?,
        u64::MAX,
    )
}

// A full count of bursts: the frame that would begin one is refused and moves nothing, a frame in order is taken.
pub fn full_count(out: &mut impl Lines) -> Shown {
    let t = GapTracker {
        burst_count: u32::MAX,
        ..after(GapTracker::new(), &[0])?
    };
    let begun = t.observe(4).map(|(tracker, _)| tracker);
    let same = out.given_back("2^32 - 1 bursts, a gap: refusal", begun, 10)?;
    out.holds("2^32 - 1 bursts, a gap: no burst begins", !same.in_burst)?;
    out.refusal("2^32 - 1 bursts, no gap: refusal", t.observe(1), 0)
}
