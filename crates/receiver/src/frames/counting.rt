// The counting half of a frame.

ghost use Rattle.std.specs.Prelude.{◌≡◌, ◌+◌, ◌<◌, ◌^◌};
ghost use Rattle.receiver.specs.Frames.{Room, reorders_after, marked_after, late_by, counted, counters_ok};

use crate::ReceiverState;
use gaps::Arrival;
use refusals::ranges::counter_u64_ok;

// One more where the counter is below the highest: out of order.
#[tactic(auto, unfolding(crate::specs::Frames::reorders_after))]
fn reorders_after(reorders: u64, highest: u64, counter: u64) -> u64
    requires { reorders + 1 < 2 ^ 64 }
    ensures { result ≡ reorders_after reorders highest counter }
{
    if counter < highest {
        reorders + 1
    } else {
        reorders
    }
}

// One more where the frame is marked CE.
#[tactic(auto, unfolding(crate::specs::Frames::marked_after))]
fn marked_after(count: u32, ce_flag: bool) -> u32
    ensures { result ≡ marked_after count ce_flag }
{
    if ce_flag {
        count.saturating_add(1)
    } else {
        count
    }
}

// How far behind the frame is, 0 where it is not.
fn late_by(arrival: Arrival) -> u64
    ensures { result ≡ late_by arrival }
{
    match arrival {
        Arrival::Behind(late) => late,
        Arrival::First | Arrival::InSequence | Arrival::Gap(_) => 0,
    }
}

impl ReceiverState {
    // Interval and cumulative counts, reordering, loss bursts, lateness and ECN.
    #[tactic(auto, unfolding(crate::specs::Frames::counted))]
    pub(crate) fn count(self, counter: u64, bytes: u32, ce_flag: bool) -> ReceiverState
        requires { Room self bytes }
        ensures { result ≡ counted self counter bytes ce_flag }
    {
        let seen = self.gap_tracker.observe_unchecked(counter);
        ReceiverState {
            interval_has_data: true,
            cumulative_packets_recv: self.cumulative_packets_recv + 1,
            cumulative_bytes_recv: self.cumulative_bytes_recv + u64::from(bytes),
            interval_packets_recv: self.interval_packets_recv.saturating_add(1),
            interval_bytes_recv: self.interval_bytes_recv.saturating_add(bytes),
            cumulative_reorder_count: reorders_after(
                self.cumulative_reorder_count,
                self.highest_counter,
                counter,
            ),
            highest_counter: self.highest_counter.max(counter),
            gap_tracker: seen.tracker,
            ecn_ce_count: marked_after(self.ecn_ce_count, ce_flag),
            interval_max_lateness: self.interval_max_lateness.max(late_by(seen.arrival)),
            ..self
        }
    }

    // Question 10: lifetime packets and bytes, and the bursts where this frame begins one.
    pub(crate) fn counters_ok(self, counter: u64, bytes: u64) -> bool
        ensures { result ≡ counters_ok self counter bytes }
    {
        counter_u64_ok(self.cumulative_packets_recv, 1)
            & counter_u64_ok(self.cumulative_bytes_recv, bytes)
            & self.gap_tracker.bursts_ok(counter)
    }
}
