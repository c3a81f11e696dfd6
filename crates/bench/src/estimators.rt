// Calls of a figure. Each turn stores a part of its random number in a table of numbers and a pair of it in the windows, and makes
// the call on a state from the table: so the compiler knows no state's range.
use crate::table::{SCALE, at, picked, settled, store_drawn, u32_of};
use algorithms::etx;
use algorithms::ewma::DualEwma;
use algorithms::jitter::JitterEstimator;
use algorithms::owd::OwdTrendDetector;
use algorithms::spin::SpinBitState;
use algorithms::srtt::SrttEstimator;

// A random number and the table that it picks from.
#[derive(Clone, Copy)]
struct Drawn<'a> {
    x: u64,
    numbers: &'a [u64],
}

impl<'a> Drawn<'a> {
    // The number that the bits of x from `shift` on pick.
    fn number(self, shift: u64) -> u64 {
        at(self.numbers, picked(self.x >> (shift % 64), 64))
    }

    fn signed(self, shift: u64) -> i64 {
        self.number(shift).cast_signed()
    }

    fn float(self, shift: u64) -> f64 {
        f64::from(u32_of(self.number(shift)))
    }

    fn ratio(self, shift: u64) -> f64 {
        self.float(shift) * SCALE
    }

    fn bit(self, shift: u64) -> bool {
        (self.x >> (shift % 64)) % 2 == 1
    }

    fn jitter(self) -> JitterEstimator {
        JitterEstimator {
            jitter_q4: self.signed(8),
        }
    }

    fn srtt(self) -> SrttEstimator {
        SrttEstimator {
            srtt_us: self.signed(8),
            rttvar_us: self.signed(16),
            initialized: true,
        }
    }

    fn ewma(self) -> DualEwma {
        DualEwma {
            short: self.float(8),
            long: self.float(16),
            initialized: true,
        }
    }

    fn spin(self) -> SpinBitState {
        SpinBitState {
            is_initiator: self.bit(1),
            current_value: self.bit(2),
            highest_counter_for_spin: self.number(16),
            last_edge_ms: Some(self.number(8)),
        }
    }
}

fn jitter_sum(after: JitterEstimator) -> u64 {
    after.jitter_q4.cast_unsigned()
}

fn srtt_sum(after: SrttEstimator) -> u64 {
    after.srtt_us.cast_unsigned() ^ after.rttvar_us.cast_unsigned()
}

fn ewma_sum(after: DualEwma) -> u64 {
    u64::from(after.short < after.long)
}

fn spin_sum(after: SpinBitState, rtt_ms: Option<u64>) -> u64 {
    rtt_ms.unwrap_or(0) ^ after.highest_counter_for_spin
}

fn rx_observe(d: Drawn) -> u64 {
    match d.spin().rx_observe(d.bit(3), d.number(32), d.number(24)) {
        Ok((after, rtt_ms)) => spin_sum(after, rtt_ms),
        Err(refused) => spin_sum(refused.state, None),
    }
}

fn rx_observe_unchecked(d: Drawn) -> u64 {
    let seen = d
        .spin()
        .rx_observe_unchecked(d.bit(3), d.number(32), d.number(24));
    spin_sum(seen.state, seen.rtt_ms)
}

// The trend of a full window whose oldest pair stands a third from its start.
fn trend(times: &[u32], delays: &[i64]) -> u64 {
    let capacity = times.len();
    let detector = OwdTrendDetector {
        capacity,
        count: capacity,
        first: capacity / 3,
    };
    let trend = detector.trend_us_per_sec(times, delays).unwrap_or(0);
    u64::from(trend.cast_unsigned())
}

fn called(call: u64, d: Drawn, times: &[u32], delays: &[i64]) -> u64 {
    match call {
        303 => jitter_sum(settled(d.jitter().update(u32_of(d.x).cast_signed()))),
        306 => jitter_sum(d.jitter().update_unchecked(u32_of(d.x).cast_signed())),
        313 => srtt_sum(settled(d.srtt().update(d.signed(24)))),
        318 => srtt_sum(d.srtt().update_unchecked(d.signed(24))),
        323 => ewma_sum(settled(d.ewma().update(d.float(24)))),
        328 => ewma_sum(d.ewma().update_unchecked(d.float(24))),
        334 | 1334 => trend(times, delays),
        341 => u64::from(etx::compute_etx(d.ratio(8), d.ratio(16)).unwrap_or(0.0) < 2.0),
        343 => u64::from(etx::compute_etx_unchecked(d.ratio(8), d.ratio(16)) < 2.0),
        355 => rx_observe(d),
        357 => rx_observe_unchecked(d),
        _ => d.number(8),
    }
}

pub fn turn(call: u64, x: u64, numbers: &mut [u64], times: &mut [u32], delays: &mut [i64]) -> u64 {
    store_drawn(x, numbers, times, delays);
    called(call, Drawn { x, numbers }, times, delays)
}
