// A rekey, and the reverse delivery ratio.

ghost use Rattle.std.specs.Prelude.{◌≡◌};
ghost use Rattle.refusals.specs.Answers.{settled};
ghost use Rattle.metrics.specs.Updates.{rekeyed, rekey_of, reverse_moved, reversed, reverse_of};

use crate::MmpMetrics;
use algorithms::etx::compute_etx_unchecked;
use figures::delivery_ratio_unchecked;
use refusals::refusal::Refused;

impl MmpMetrics {
    // The new session's counters start at 0, so no delta may reach back. RTT stays, as do ETX, trends and goodput.
    #[tactic(auto, unfolding(crate::specs::Updates::rekeyed))]
    fn rekeyed(self) -> MmpMetrics
        ensures { result ≡ rekeyed self }
    {
        MmpMetrics {
            delivery_ratio_forward: 1.0,
            prev_rr_cum_packets: 0,
            prev_rr_cum_bytes: 0,
            prev_rr_highest_counter: 0,
            prev_rr_ecn_ce: 0,
            prev_rr_reorder: 0,
            prev_rr_ms: None,
            has_prev_rr: false,
            prev_reverse_packets: 0,
            prev_reverse_highest: 0,
            has_prev_reverse: false,
            ..self
        }
    }

    // Clears what was derived from report counters, for a rekey cutover.
    #[tactic(auto, unfolding(crate::specs::Updates::rekey_of, refusals::specs::Answers::admitted, refusals::specs::Answers::settled))]
    pub fn reset_for_rekey(self) -> Result<MmpMetrics, Refused<MmpMetrics>>
        ensures { result ≡ settled (rekey_of self) }
    {
        self.admit()?;
        Ok(self.rekeyed())
    }

    // The ratio and ETX of the interval, where there was one.
    #[tactic(auto, unfolding(crate::specs::Updates::reverse_moved))]
    fn move_reverse(&mut self, packets: u64, highest: u64)
        ensures { self.new ≡ reverse_moved self.old packets highest }
    {
        let counter_span = highest.saturating_sub(self.prev_reverse_highest);
        let packets_delta = packets.saturating_sub(self.prev_reverse_packets);
        if self.has_prev_reverse && 0 < counter_span {
            self.delivery_ratio_reverse = delivery_ratio_unchecked(packets_delta, counter_span);
            self.etx = compute_etx_unchecked(
                self.delivery_ratio_forward,
                self.delivery_ratio_reverse,
            );
        }
    }

    // The same, and both counters kept.
    #[tactic(auto, unfolding(crate::specs::Updates::reversed))]
    fn reverse(&mut self, packets: u64, highest: u64)
        ensures { self.new ≡ reversed self.old packets highest }
    {
        self.move_reverse(packets, highest);
        self.prev_reverse_packets = packets;
        self.prev_reverse_highest = highest;
        self.has_prev_reverse = true;
    }

    // The reverse delivery ratio from our own receiver state, over the interval since the last update. ETX follows; its trend waits for a report.
    #[tactic(auto, unfolding(crate::specs::Updates::reverse_of, refusals::specs::Answers::admitted, refusals::specs::Answers::settled))]
    pub fn update_reverse_delivery(
        self,
        our_recv_packets: u64,
        peer_highest: u64,
    ) -> Result<MmpMetrics, Refused<MmpMetrics>>
        ensures { result ≡ settled (reverse_of self our_recv_packets peer_highest) }
    {
        self.admit()?;
        let mut state = self;
        state.reverse(our_recv_packets, peer_highest);
        Ok(state)
    }
}
