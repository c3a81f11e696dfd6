// How far apart reports are sent: what SenderState and ReceiverState have in common. A state hands in its pace, and puts the answer in its place.

#![tactic(auto)]

pub mod intervals; // intervals.rt: an interval between bounds, and the floor at an update

ghost use Rattle.std.specs.Prelude.{◌≡◌, ◌*◌, true};
ghost use Rattle.numbers.specs.Signs.{as_unsigned};
ghost use Rattle.refusals.specs.Answers.{passed};
ghost use Rattle.refusals.specs.Ranges.{smoothed_ok};
ghost use Rattle.pace.specs.Intervals.{next_interval};
ghost use Rattle.pace.specs.Updates.{cold_start_refusal, paced, from_srtt, with_bounds};

use crate::intervals::{floor_ms, next_interval_ms};
use numbers::signs::unsigned;
use refusals::questions::Questions;
use refusals::ranges::{bounds_ok, clock_ok, smoothed_ok};
use refusals::refusal::Refusal;

// The report interval and the count of its updates.
#[derive(Clone, Copy)]
pub struct Pace {
    pub report_interval_ms: u64,
    pub srtt_sample_count: u32,
}

// The refusal of a cold-start interval.
#[tactic(auto, unfolding(crate::specs::Updates::cold_start_refusal, refusals::specs::Questions::first_no, refusals::specs::Questions::asked))]
pub fn cold_start_refusal(cold_start_ms: u64) -> Result<(), Refusal>
    ensures { result ≡ passed (cold_start_refusal cold_start_ms) }
{
    let mut q = Questions::all_yes();
    q.clocks = clock_ok(cold_start_ms);
    q.first_no()
}

impl Pace {
    // The interval of so many times SRTT, between the bounds.
    fn interval_ms(self, multiple: u8, srtt_us: i64, min_ms: u64, max_ms: u64) -> u64
        requires { smoothed_ok srtt_us ≡ true }
        ensures { result ≡ next_interval self.report_interval_ms (multiple * as_unsigned srtt_us) min_ms max_ms }
    {
        let interval_us = u64::from(multiple) * unsigned(srtt_us);
        next_interval_ms(self.report_interval_ms, interval_us, min_ms, max_ms)
    }

    // The interval from SRTT, between the link layer's bounds. The update is counted, and the first few have a lower floor.
    #[tactic(auto, unfolding(crate::specs::Updates::paced, crate::specs::Updates::from_srtt, crate::specs::Updates::updated, crate::specs::Updates::from_srtt_refusal, refusals::specs::Questions::first_no, refusals::specs::Questions::asked, refusals::specs::Answers::answered))]
    pub fn from_srtt(self, state_ok: bool, multiple: u8, srtt_us: i64) -> Result<Pace, Refusal>
        ensures { result ≡ paced (from_srtt state_ok multiple self.report_interval_ms self.srtt_sample_count srtt_us) }
    {
        let mut q = Questions::all_yes();
        q.state = state_ok;
        q.round_trip = smoothed_ok(srtt_us);
        q.first_no()?;
        let updates = self.srtt_sample_count.saturating_add(1);
        Ok(Pace {
            report_interval_ms: self.interval_ms(
                multiple,
                srtt_us,
                floor_ms(updates),
                limits::MAX_REPORT_INTERVAL_MS,
            ),
            srtt_sample_count: updates,
        })
    }

    // The interval from SRTT, between bounds of the caller's, which are two numbers as in the Rust. The update is not counted.
    #[tactic(auto, unfolding(crate::specs::Updates::paced, crate::specs::Updates::with_bounds, crate::specs::Updates::updated, crate::specs::Updates::with_bounds_refusal, refusals::specs::Questions::first_no, refusals::specs::Questions::asked, refusals::specs::Answers::answered))]
    pub fn with_bounds(
        self,
        state_ok: bool,
        multiple: u8,
        srtt_us: i64,
        min_ms: u64,
        max_ms: u64,
    ) -> Result<Pace, Refusal>
        ensures { result ≡ paced (with_bounds state_ok multiple self.report_interval_ms self.srtt_sample_count srtt_us min_ms max_ms) }
    {
        let mut q = Questions::all_yes();
        q.state = state_ok;
        q.clocks = clock_ok(min_ms) & clock_ok(max_ms);
        q.round_trip = smoothed_ok(srtt_us);
        q.interval_bounds = bounds_ok(srtt_us, min_ms, max_ms);
        q.first_no()?;
        Ok(Pace {
            report_interval_ms: self.interval_ms(multiple, srtt_us, min_ms, max_ms),
            ..self
        })
    }
}
