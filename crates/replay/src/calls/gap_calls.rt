// Calls 451 to 459 and 471 to 473: `GapTracker`.
use crate::arguments::{Argument, Arguments};
use crate::reply::{Reply, Reported};
use gaps::checked::BurstStats;
use gaps::{Arrival, GapTracker, lost_before, mean_burst};

pub fn answer(call: u64, args: &mut Arguments<'_>, reply: &mut Reply) -> Option<()> {
    match call {
        451 => reply.put(GapTracker::new()),
        452 => {
            let seen = GapTracker::observe_unchecked(args.take()?, args.take()?);
            reply.put(seen.arrival);
            reply.put(seen.tracker);
        }
        453 => {
            let stats = GapTracker::take_interval_stats_unchecked(args.take()?);
            reply.put(stats.count);
            reply.put(stats.max);
            reply.put(stats.mean);
            reply.put(stats.tracker);
        }
        454 => reply.put(GapTracker::finish_burst_unchecked(args.take()?)),
        455 => reply.put(GapTracker::keeps_rule(args.take()?)),
        456 => reply.put(GapTracker::begins_burst(args.take()?, args.take()?)),
        457 => reply.put(GapTracker::bursts_ok(args.take()?, args.take()?)),
        458 => reply.put(mean_burst(args.take()?, args.take()?)),
        459 => reply.put(lost_before(args.take()?)),
        471 => reply.put(GapTracker::observe(args.take()?, args.take()?)),
        472 => reply.put(GapTracker::take_interval_stats(args.take()?)),
        _ => reply.put(GapTracker::finish_burst(args.take()?)),
    }
    Some(())
}

impl Argument for GapTracker {
    fn read(args: &mut Arguments<'_>) -> Option<GapTracker> {
        Some(GapTracker {
            expected_next: args.take()?,
            in_burst: args.take()?,
            current_burst_len: args.take()?,
            burst_count: args.take()?,
            max_burst_len: args.take()?,
            total_burst_len: args.take()?,
        })
    }
}

impl Reported for GapTracker {
    fn width() -> usize {
        7
    }

    fn report(self, reply: &mut Reply) {
        reply.put(self.expected_next);
        reply.put(self.in_burst);
        reply.put(self.current_burst_len);
        reply.put(self.burst_count);
        reply.put(self.max_burst_len);
        reply.put(self.total_burst_len);
    }
}

// The case, and its frames: those of a gap, or how far behind.
impl Argument for Arrival {
    fn read(args: &mut Arguments<'_>) -> Option<Arrival> {
        match (args.number()?, args.number()?) {
            (0, 0) => Some(Arrival::First),
            (1, 0) => Some(Arrival::InSequence),
            (2, missing) => Some(Arrival::Gap(missing)),
            (3, late) => Some(Arrival::Behind(late)),
            _ => None,
        }
    }
}

// The commit's number, then the case and its frames.
impl Reported for Arrival {
    fn width() -> usize {
        3
    }

    fn report(self, reply: &mut Reply) {
        let (case, frames) = match self {
            Arrival::First => (0, 0),
            Arrival::InSequence => (1, 0),
            Arrival::Gap(missing) => (2, missing),
            Arrival::Behind(late) => (3, late),
        };
        reply.number(lost_before(self));
        reply.number(case);
        reply.number(frames);
    }
}

impl Reported for BurstStats {
    fn width() -> usize {
        3
    }

    fn report(self, reply: &mut Reply) {
        reply.put(self.count);
        reply.put(self.max);
        reply.put(self.mean);
    }
}
