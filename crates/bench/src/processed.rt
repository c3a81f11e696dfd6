// Calls on a metrics record and a report: a record of the tables, the call, and the sum of all that it answered.
use crate::calls::receiver_sum;
use crate::table::{Fields, SCALE, picked, refusal_of, store, u16_of, u32_of};
use algorithms::ewma::DualEwma;
use algorithms::srtt::SrttEstimator;
use metrics::{MmpMetrics, Outcome, RrLog};
use wire::receiver_report::ReceiverReport;

// Where one of eight rows of tallies begins.
fn row(x: u64) -> usize {
    picked(x, 8) << 3
}

// A row that keeps the rule: the reports seen, and the five kinds that they are the sum of, each below 2^35. A call reads a row that the
// random number picks anew, so the compiler knows nothing of the six.
fn store_tallies(tallies: &mut [u64], from: usize, x: u64) {
    let stale = x >> 29;
    let no_echo = x >> 30;
    let samples = x >> 31;
    let zeros = x >> 32;
    let failures = x >> 33;
    store(tallies, from, stale + no_echo + samples + zeros + failures);
    store(tallies, from.wrapping_add(1), stale);
    store(tallies, from.wrapping_add(2), no_echo);
    store(tallies, from.wrapping_add(3), samples);
    store(tallies, from.wrapping_add(4), zeros);
    store(tallies, from.wrapping_add(5), failures);
}

impl<'a> Fields<'a, f64> {
    fn ewma(&self, k: usize, initialized: bool) -> DualEwma {
        DualEwma {
            short: self.at(k),
            long: self.at(k.wrapping_add(1)),
            initialized,
        }
    }
}

fn state_of(n: Fields<u64>, f: Fields<f64>, t: Fields<u64>) -> MmpMetrics {
    MmpMetrics {
        srtt: SrttEstimator {
            srtt_us: n.at(0).cast_signed(),
            rttvar_us: n.at(1).cast_signed(),
            initialized: n.is_set(2),
        },
        rtt_trend: f.ewma(0, n.is_set(3)),
        loss_trend: f.ewma(2, n.is_set(4)),
        goodput_trend: f.ewma(4, n.is_set(5)),
        jitter_trend: f.ewma(6, n.is_set(6)),
        etx_trend: f.ewma(8, n.is_set(7)),
        delivery_ratio_forward: f.at(10),
        delivery_ratio_reverse: f.at(11),
        etx: 1.0 + f.at(12),
        goodput_bps: f.at(13),
        prev_rr_cum_packets: n.at(12),
        prev_rr_cum_bytes: n.at(13),
        prev_rr_highest_counter: n.at(14),
        prev_rr_ecn_ce: u32_of(n.at(15) >> 8),
        prev_rr_reorder: u32_of(n.at(16) >> 8),
        prev_rr_ms: n.is_set(8).then_some(n.at(9)),
        has_prev_rr: n.is_set(17),
        prev_reverse_packets: n.at(18),
        prev_reverse_highest: n.at(19),
        has_prev_reverse: n.is_set(20),
        reports_seen: t.at(0),
        rtt_samples: t.at(3),
        rtt_zero: t.at(4),
        rtt_arith_fail: t.at(5),
        last_rtt_ms: n.is_set(10).then_some(n.word(11)),
        stale_reports: t.at(1),
        no_echo_reports: t.at(2),
    }
}

// A report whose counters are all above the ones kept, or, where it is late, all 0.
fn report_of(n: Fields<u64>, x: u64, late: bool) -> ReceiverReport {
    let count = if late { 0 } else { 1 << 36 };
    ReceiverReport {
        highest_counter: n.held(25, count),
        cumulative_packets_recv: n.held(26, count),
        cumulative_bytes_recv: n.held(27, count),
        timestamp_echo: u32_of(n.at(28) >> 8),
        dwell_time: u16_of(x),
        max_burst_loss: u16_of(x >> 1),
        mean_burst_loss: u16_of(x >> 2),
        jitter: u32_of(x ^ 7),
        ecn_ce_count: u32_of(n.held(29, count >> 5)),
        owd_trend: u32_of(x ^ 9).cast_signed(),
        burst_loss_count: u32_of(x ^ 10),
        cumulative_reorder_count: u32_of(n.held(30, count >> 5)),
        interval_packets_recv: u32_of(x ^ 12),
        interval_bytes_recv: u32_of(x ^ 13),
    }
}

// The floats of a record, added up.
fn total(m: MmpMetrics) -> f64 {
    let rtt = m.rtt_trend.short + m.rtt_trend.long;
    let loss = m.loss_trend.short + m.loss_trend.long;
    let goodput = m.goodput_trend.short + m.goodput_trend.long;
    let jitter = m.jitter_trend.short + m.jitter_trend.long;
    let etx = m.etx_trend.short + m.etx_trend.long;
    let ratios = m.delivery_ratio_forward + m.delivery_ratio_reverse + m.etx + m.goodput_bps;
    rtt + loss + goodput + jitter + etx + ratios
}

// Whether all that a record may have has begun.
fn begun(m: MmpMetrics) -> bool {
    m.srtt.initialized
        & m.rtt_trend.initialized
        & m.loss_trend.initialized
        & m.goodput_trend.initialized
        & m.jitter_trend.initialized
        & m.etx_trend.initialized
        & m.has_prev_rr
        & m.has_prev_reverse
}

fn state_sum(m: MmpMetrics) -> u64 {
    let round_trip = m.srtt.srtt_us.cast_unsigned() ^ m.srtt.rttvar_us.cast_unsigned();
    let kept = m.prev_rr_cum_packets
        ^ m.prev_rr_cum_bytes
        ^ m.prev_rr_highest_counter
        ^ u64::from(m.prev_rr_ecn_ce ^ m.prev_rr_reorder);
    let reverse = m.prev_reverse_packets ^ m.prev_reverse_highest;
    let counts = m.reports_seen
        ^ m.rtt_samples
        ^ m.rtt_zero
        ^ m.rtt_arith_fail
        ^ m.stale_reports
        ^ m.no_echo_reports;
    let times = m.prev_rr_ms.unwrap_or(1) ^ m.last_rtt_ms.map_or(1, u64::from);
    let flags = u64::from(begun(m)) ^ u64::from(total(m) < 8.0);
    round_trip ^ kept ^ reverse ^ counts ^ times ^ flags
}

fn log_sum(log: RrLog) -> u64 {
    match log {
        RrLog::None => 1,
        RrLog::Stale {
            prev_highest,
            prev_packets,
            prev_bytes,
        } => prev_highest ^ prev_packets ^ prev_bytes,
        RrLog::RttSample { rtt_ms, srtt_ms } => u64::from(rtt_ms) ^ u64::from(srtt_ms < 8.0),
        RrLog::InvalidRtt => 3,
    }
}

fn outcome_sum(o: Outcome) -> u64 {
    log_sum(o.log) ^ u64::from(o.first_srtt)
}

// Our time is after the echo and the dwell.
fn process(state: MmpMetrics, rr: ReceiverReport, echo: u64, now_ms: u64) -> u64 {
    match state.process_receiver_report(rr, u32_of(echo | 1 << 28), now_ms) {
        Ok((after, outcome)) => state_sum(after) ^ outcome_sum(outcome),
        // A refused report has no log entry, whose sum is 1.
        Err(refused) => state_sum(refused.state) ^ 1 ^ refusal_of(Err(refused.refusal)),
    }
}

// The floats are from 0 up to 1.
pub fn turn(
    call: u64,
    x: u64,
    numbers: &mut [u64],
    floats: &mut [f64],
    tallies: &mut [u64],
) -> u64 {
    let slot = picked(x, 64);
    store(numbers, slot, x >> 29);
    store(floats, slot, f64::from(u32_of(x)) * SCALE);
    store_tallies(tallies, row(x >> 16), x);
    let n = Fields::picked(numbers, x);
    let f = Fields::picked(floats, x);
    let t = Fields {
        all: tallies,
        from: row(x >> 20),
    };
    let state = state_of(n, f, t);
    let rr = report_of(n, x, call == 1603);
    let given = receiver_sum(rr);
    let now_ms = n.at(31);
    match call {
        603 | 1603 => given ^ process(state, rr, n.at(28) >> 8, now_ms),
        _ => given ^ state_sum(state) ^ now_ms,
    }
}
