// The tracker's calls, each after the questions that it has.

ghost use Rattle.std.specs.Prelude.{◌≡◌};
ghost use Rattle.refusals.specs.Answers.{admitted};
ghost use Rattle.gaps.specs.Checked.{refusal_of, observe_of, observed_as, finish_of, finished_as, take_of, taken_as};

use crate::{Arrival, GapTracker};
use refusals::questions::Questions;
use refusals::refusal::Refused;

// An interval's bursts: their number, the longest and the mean in 1/256 of a frame. `IntervalStats` has the three too: contracts name its fields.
#[derive(Clone, Copy)]
pub struct BurstStats {
    pub count: u32,
    pub max: u16,
    pub mean: u16,
}

impl GapTracker {
    // Question 1 alone, for a call with no other: ewma.rt says why each record has these lines.
    #[tactic(auto, unfolding(crate::specs::Checked::refusal_of, refusals::specs::Questions::first_no, refusals::specs::Questions::asked))]
    fn admit(self) -> Result<(), Refused<GapTracker>>
        ensures { result ≡ admitted (refusal_of self) self }
    {
        let mut q = Questions::all_yes();
        q.state = self.keeps_rule();
        q.admit(self)
    }

    // Process a received counter value, unless the count of bursts can't hold the one that it begins. Answers where the frame stands.
    #[tactic(auto, unfolding(crate::specs::Checked::observe_of, crate::specs::Checked::observe_refusal, refusals::specs::Questions::first_no, refusals::specs::Questions::asked, refusals::specs::Answers::admitted, refusals::specs::Answers::settled_with))]
    pub fn observe(self, counter: u64) -> Result<(GapTracker, Arrival), Refused<GapTracker>>
        ensures { result ≡ observed_as (observe_of self counter) }
    {
        let mut q = Questions::all_yes();
        q.state = self.keeps_rule();
        q.counters = self.bursts_ok(counter);
        q.admit(self)?;
        let seen = self.observe_unchecked(counter);
        Ok((seen.tracker, seen.arrival))
    }

    // Finish the current burst and record its stats. The rule bounds the sum of the lengths, so no counter is asked about.
    #[tactic(auto, unfolding(crate::specs::Checked::finish_of, refusals::specs::Answers::admitted, refusals::specs::Answers::settled))]
    pub fn finish_burst(self) -> Result<GapTracker, Refused<GapTracker>>
        ensures { result ≡ finished_as (finish_of self) }
    {
        self.admit()?;
        Ok(self.finish_burst_unchecked())
    }

    // Get interval stats and reset for next interval.
    #[tactic(auto, unfolding(crate::specs::Checked::take_of, refusals::specs::Answers::admitted, refusals::specs::Answers::settled_with))]
    pub fn take_interval_stats(self) -> Result<(GapTracker, BurstStats), Refused<GapTracker>>
        ensures { result ≡ taken_as (take_of self) }
    {
        self.admit()?;
        let stats = self.take_interval_stats_unchecked();
        Ok((
            stats.tracker,
            BurstStats {
                count: stats.count,
                max: stats.max,
                mean: stats.mean,
            },
        ))
    }
}
