// The sampling half of a frame: jitter, the one-way delay trend and what the timestamp echo reads.

ghost use Rattle.std.specs.Prelude.{◌≡◌, set};
ghost use Rattle.samples.specs.Delay.{age_of, delay_of};
ghost use Rattle.receiver.specs.Frames.{timing_sampled, echo_if_sampled, pushes, with_sample, slot_for, times_after, delays_after};

use crate::ReceiverState;
use samples::delay::{base_of_unchecked, sample_owd_unchecked};
use samples::transit::{in_grace, jitter_after_unchecked};

impl ReceiverState {
    // A frame that moves no figure: in grace it still moves the echo, and not sampled it moves nothing.
    #[tactic(auto, unfolding(crate::specs::Frames::echo_if_sampled))]
    fn echo_if_sampled(self, timestamp: u32, now_ms: u64, sampled: bool) -> ReceiverState
        ensures { result ≡ echo_if_sampled self timestamp now_ms sampled }
    {
        if sampled {
            ReceiverState {
                last_sender_timestamp: timestamp,
                last_recv_ms: Some(now_ms),
                ..self
            }
        } else {
            self
        }
    }

    // A frame out of grace moves all three, and clears an expired grace.
    #[tactic(auto, unfolding(crate::specs::Frames::slot_for, samples::specs::Delay::delay_of, samples::specs::Delay::age_of, crate::specs::Frames::timing_sampled))]
    fn sample_timing(
        self,
        times: &mut [u32],
        delays: &mut [i64],
        timestamp: u32,
        now_ms: u64,
    ) -> ReceiverState
        ensures answer { result ≡ timing_sampled self timestamp now_ms }
        ensures times { times.new ≡ set times.old (slot_for self now_ms) (age_of self.owd_ref timestamp now_ms) }
        ensures delays { delays.new ≡ set delays.old (slot_for self now_ms) (delay_of self.owd_ref timestamp now_ms) }
    {
        ReceiverState {
            jitter: jitter_after_unchecked(
                self.jitter,
                self.last_recv_ms,
                self.last_sender_timestamp,
                timestamp,
                now_ms,
            ),
            owd_trend: sample_owd_unchecked(
                self.owd_trend,
                self.owd_ref,
                times,
                delays,
                timestamp,
                now_ms,
            ),
            owd_ref: Some(base_of_unchecked(self.owd_ref, now_ms, timestamp)),
            rekey_jitter_grace_until_ms: None,
            last_sender_timestamp: timestamp,
            last_recv_ms: Some(now_ms),
            ..self
        }
    }

    // Whether the frame pushes a sample: it is sampled, and out of grace.
    #[tactic(auto, unfolding(crate::specs::Frames::pushes))]
    fn pushes(self, now_ms: u64, sampled: bool) -> bool
        ensures { result ≡ pushes self now_ms sampled }
    {
        sampled & !in_grace(self.rekey_jitter_grace_until_ms, now_ms)
    }

    #[tactic(auto, unfolding(crate::specs::Frames::with_sample, crate::specs::Frames::delays_after, crate::specs::Frames::times_after))]
    pub(crate) fn sample(
        self,
        times: &mut [u32],
        delays: &mut [i64],
        timestamp: u32,
        now_ms: u64,
        sampled: bool,
    ) -> ReceiverState
        ensures answer { result ≡ with_sample self timestamp now_ms sampled }
        ensures times { times.new ≡ times_after self times.old timestamp now_ms sampled }
        ensures delays { delays.new ≡ delays_after self delays.old timestamp now_ms sampled }
    {
        if self.pushes(now_ms, sampled) {
            self.sample_timing(times, delays, timestamp, now_ms)
        } else {
            self.echo_if_sampled(timestamp, now_ms, sampled)
        }
    }
}
