// Calls 301 to 328 and 341 to 357: the estimators of `algorithms`.
use crate::arguments::{Argument, Arguments};
use crate::reply::{Reply, Reported};
use algorithms::etx;
use algorithms::ewma::DualEwma;
use algorithms::jitter::JitterEstimator;
use algorithms::spin::SpinBitState;
use algorithms::srtt::SrttEstimator;

// Calls 301 to 306: `JitterEstimator`.
pub fn jitter(call: u64, args: &mut Arguments<'_>, reply: &mut Reply) -> Option<()> {
    match call {
        301 => reply.put(JitterEstimator::new()),
        302 => reply.put(JitterEstimator::default()),
        303 => reply.put(JitterEstimator::update(args.take()?, args.take()?)),
        304 => reply.put(JitterEstimator::jitter_us(args.take()?)),
        305 => reply.put(JitterEstimator::keeps_rule(args.take()?)),
        _ => reply.put(JitterEstimator::update_unchecked(args.take()?, args.take()?)),
    }
    Some(())
}

// Calls 311 to 318: `SrttEstimator`.
pub fn round_trip(call: u64, args: &mut Arguments<'_>, reply: &mut Reply) -> Option<()> {
    match call {
        311 => reply.put(SrttEstimator::new()),
        312 => reply.put(SrttEstimator::default()),
        313 => reply.put(SrttEstimator::update(args.take()?, args.take()?)),
        314 => reply.put(SrttEstimator::srtt_us(args.take()?)),
        315 => reply.put(SrttEstimator::rttvar_us(args.take()?)),
        316 => reply.put(SrttEstimator::initialized(args.take()?)),
        317 => reply.put(SrttEstimator::keeps_rule(args.take()?)),
        _ => reply.put(SrttEstimator::update_unchecked(args.take()?, args.take()?)),
    }
    Some(())
}

// Calls 321 to 328: `DualEwma`.
pub fn trends(call: u64, args: &mut Arguments<'_>, reply: &mut Reply) -> Option<()> {
    match call {
        321 => reply.put(DualEwma::new()),
        322 => reply.put(DualEwma::default()),
        323 => reply.put(DualEwma::update(args.take()?, args.take()?)),
        324 => reply.put(DualEwma::short(args.take()?)),
        325 => reply.put(DualEwma::long(args.take()?)),
        326 => reply.put(DualEwma::initialized(args.take()?)),
        327 => reply.put(DualEwma::keeps_rule(args.take()?)),
        _ => reply.put(DualEwma::update_unchecked(args.take()?, args.take()?)),
    }
    Some(())
}

// Calls 341 to 344: the expected transmission count, and the quality index.
pub fn quality(call: u64, args: &mut Arguments<'_>, reply: &mut Reply) -> Option<()> {
    let (a, b) = (args.take()?, args.take()?);
    match call {
        341 => reply.put(etx::compute_etx(a, b)),
        342 => reply.put(etx::quality_index(a, b)),
        343 => reply.put(etx::compute_etx_unchecked(a, b)),
        _ => reply.put(etx::quality_index_unchecked(a, b)),
    }
    Some(())
}

// Calls 351 to 357: `SpinBitState`.
pub fn spin(call: u64, args: &mut Arguments<'_>, reply: &mut Reply) -> Option<()> {
    match call {
        351 => reply.put(SpinBitState::new(args.take()?)),
        352 => reply.put(SpinBitState::restart(args.take()?)),
        353 => reply.put(SpinBitState::is_initiator(args.take()?)),
        354 => reply.put(SpinBitState::tx_bit(args.take()?)),
        355 => {
            let s: SpinBitState = args.take()?;
            reply.put(s.rx_observe(args.take()?, args.take()?, args.take()?));
        }
        356 => reply.put(SpinBitState::keeps_rule(args.take()?)),
        _ => {
            let s: SpinBitState = args.take()?;
            let seen = s.rx_observe_unchecked(args.take()?, args.take()?, args.take()?);
            reply.number(0);
            reply.put(seen.rtt_ms);
            reply.put(seen.state);
        }
    }
    Some(())
}

impl Argument for JitterEstimator {
    fn read(args: &mut Arguments<'_>) -> Option<JitterEstimator> {
        Some(JitterEstimator {
            jitter_q4: args.take()?,
        })
    }
}

impl Reported for JitterEstimator {
    fn report(self, reply: &mut Reply) {
        reply.put(self.jitter_q4);
    }
}

impl Argument for SrttEstimator {
    fn read(args: &mut Arguments<'_>) -> Option<SrttEstimator> {
        Some(SrttEstimator {
            srtt_us: args.take()?,
            rttvar_us: args.take()?,
            initialized: args.take()?,
        })
    }
}

impl Reported for SrttEstimator {
    fn width() -> usize {
        3
    }

    fn report(self, reply: &mut Reply) {
        reply.put(self.srtt_us);
        reply.put(self.rttvar_us);
        reply.put(self.initialized);
    }
}

impl Argument for DualEwma {
    fn read(args: &mut Arguments<'_>) -> Option<DualEwma> {
        Some(DualEwma {
            short: args.take()?,
            long: args.take()?,
            initialized: args.take()?,
        })
    }
}

impl Reported for DualEwma {
    fn width() -> usize {
        3
    }

    fn report(self, reply: &mut Reply) {
        reply.put(self.short);
        reply.put(self.long);
        reply.put(self.initialized);
    }
}

impl Argument for SpinBitState {
    fn read(args: &mut Arguments<'_>) -> Option<SpinBitState> {
        Some(SpinBitState {
            is_initiator: args.take()?,
            current_value: args.take()?,
            highest_counter_for_spin: args.take()?,
            last_edge_ms: args.take()?,
        })
    }
}

impl Reported for SpinBitState {
    fn width() -> usize {
        5
    }

    fn report(self, reply: &mut Reply) {
        reply.put(self.is_initiator);
        reply.put(self.current_value);
        reply.put(self.highest_counter_for_spin);
        reply.put(self.last_edge_ms);
    }
}
