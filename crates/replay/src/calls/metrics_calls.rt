// Calls 601 to 621: `MmpMetrics`.
use crate::arguments::{Argument, Arguments};
use crate::reply::{Reply, Reported};
use metrics::{MmpMetrics, Outcome, RrCounters, RrLog};

pub fn answer(call: u64, args: &mut Arguments<'_>, reply: &mut Reply) -> Option<()> {
    match call {
        601 => reply.put(MmpMetrics::new()),
        602 => reply.put(MmpMetrics::default()),
        603 => reply.put(MmpMetrics::process_receiver_report(
            args.take()?,
            args.take()?,
            args.take()?,
            args.take()?,
        )),
        604 => reply.put(MmpMetrics::reset_for_rekey(args.take()?)),
        605 => reply.put(MmpMetrics::update_reverse_delivery(
            args.take()?,
            args.take()?,
            args.take()?,
        )),
        606 => reply.put(MmpMetrics::srtt_ms(args.take()?)),
        607 => reply.put(MmpMetrics::loss_rate(args.take()?)),
        608 => reply.put(MmpMetrics::smoothed_loss(args.take()?)),
        609 => reply.put(MmpMetrics::quality_index(args.take()?)),
        610 => reply.put(MmpMetrics::smoothed_etx(args.take()?)),
        611 => reply.put(MmpMetrics::goodput_bps(args.take()?)),
        612 => reply.put(MmpMetrics::last_ecn_ce_count(args.take()?)),
        613 => reply.put(MmpMetrics::rr_counters(args.take()?)),
        614 => reply.put(MmpMetrics::reports_seen(args.take()?)),
        615 => reply.put(MmpMetrics::rtt_samples(args.take()?)),
        616 => reply.put(MmpMetrics::rtt_zero(args.take()?)),
        617 => reply.put(MmpMetrics::rtt_arith_fail(args.take()?)),
        618 => reply.put(MmpMetrics::last_rtt_ms(args.take()?)),
        619 => reply.put(MmpMetrics::keeps_rule(args.take()?)),
        620 => reply.put(MmpMetrics::stale_reports(args.take()?)),
        _ => reply.put(MmpMetrics::no_echo_reports(args.take()?)),
    }
    Some(())
}

impl Argument for MmpMetrics {
    fn read(args: &mut Arguments<'_>) -> Option<MmpMetrics> {
        Some(MmpMetrics {
            srtt: args.take()?,
            rtt_trend: args.take()?,
            loss_trend: args.take()?,
            goodput_trend: args.take()?,
            jitter_trend: args.take()?,
            etx_trend: args.take()?,
            delivery_ratio_forward: args.take()?,
            delivery_ratio_reverse: args.take()?,
            etx: args.take()?,
            goodput_bps: args.take()?,
            prev_rr_cum_packets: args.take()?,
            prev_rr_cum_bytes: args.take()?,
            prev_rr_highest_counter: args.take()?,
            prev_rr_ecn_ce: args.take()?,
            prev_rr_reorder: args.take()?,
            prev_rr_ms: args.take()?,
            has_prev_rr: args.take()?,
            prev_reverse_packets: args.take()?,
            prev_reverse_highest: args.take()?,
            has_prev_reverse: args.take()?,
            reports_seen: args.take()?,
            rtt_samples: args.take()?,
            rtt_zero: args.take()?,
            rtt_arith_fail: args.take()?,
            last_rtt_ms: args.take()?,
            stale_reports: args.take()?,
            no_echo_reports: args.take()?,
        })
    }
}

impl Reported for MmpMetrics {
    fn width() -> usize {
        41
    }

    fn report(self, reply: &mut Reply) {
        reply.put(self.srtt);
        reply.put(self.rtt_trend);
        reply.put(self.loss_trend);
        reply.put(self.goodput_trend);
        reply.put(self.jitter_trend);
        reply.put(self.etx_trend);
        reply.put(self.delivery_ratio_forward);
        reply.put(self.delivery_ratio_reverse);
        reply.put(self.etx);
        reply.put(self.goodput_bps);
        reply.put(self.prev_rr_cum_packets);
        reply.put(self.prev_rr_cum_bytes);
        reply.put(self.prev_rr_highest_counter);
        reply.put(self.prev_rr_ecn_ce);
        reply.put(self.prev_rr_reorder);
        reply.put(self.prev_rr_ms);
        reply.put(self.has_prev_rr);
        reply.put(self.prev_reverse_packets);
        reply.put(self.prev_reverse_highest);
        reply.put(self.has_prev_reverse);
        reply.put(self.reports_seen);
        reply.put(self.rtt_samples);
        reply.put(self.rtt_zero);
        reply.put(self.rtt_arith_fail);
        reply.put(self.last_rtt_ms);
        reply.put(self.stale_reports);
        reply.put(self.no_echo_reports);
    }
}

// Whether the round trip has just become known, and the log entry: its kind, and three numbers.
impl Reported for Outcome {
    fn width() -> usize {
        5
    }

    fn report(self, reply: &mut Reply) {
        reply.put(self.first_srtt);
        match self.log {
            RrLog::None => reply.put([0, 0, 0, 0]),
            RrLog::Stale {
                prev_highest,
                prev_packets,
                prev_bytes,
            } => {
                reply.number(1);
                reply.put(prev_highest);
                reply.put(prev_packets);
                reply.put(prev_bytes);
            }
            RrLog::RttSample { rtt_ms, srtt_ms } => {
                reply.number(2);
                reply.put(rtt_ms);
                reply.put(srtt_ms);
                reply.number(0);
            }
            RrLog::InvalidRtt => reply.put([3, 0, 0, 0]),
        }
    }
}

impl Reported for RrCounters {
    fn width() -> usize {
        3
    }

    fn report(self, reply: &mut Reply) {
        reply.put(self.highest);
        reply.put(self.packets);
        reply.put(self.reorders);
    }
}
