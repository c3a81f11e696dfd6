// What stands beside SRTT and RTTVAR: the exact averages of RFC 6298, and a smoother that stores whole milliseconds.
//
// The averages are doubles. No value here is above 2^18 us, where rounding puts a double at most 2^-36 us off. A step of S rounds twice, the first time an
// eighth of what is added, and keeps 7/8 of the error before it: S is less than 9 x 2^-36 us off. V, which takes |S - R| and keeps 3/4, is less than 16 x 2^-36
// us off: both less than 1e-9 us, a thousandth of the last place that is shown.

#[derive(Clone, Copy, Default)]
pub struct Smoothers {
    // S: the average of the round trips, in us.
    pub average_us: f64,
    // V: the average of |S - R|, in us.
    pub variation_us: f64,
    pub whole_ms: u64,
}

// SRTT's own step, in whole milliseconds: 7 - 7/8 + 3/8 is 7.
fn whole_step(whole_ms: u64, rtt_ms: u64) -> u64 {
    whole_ms - whole_ms / 8 + rtt_ms / 8
}

impl Smoothers {
    pub fn first(rtt_ms: u32) -> Smoothers {
        let us = 1000.0 * f64::from(rtt_ms);
        Smoothers {
            average_us: us,
            variation_us: us * 0.5,
            whole_ms: u64::from(rtt_ms),
        }
    }

    // A round trip more. V takes the S from before it.
    pub fn after(self, rtt_ms: u32) -> Smoothers {
        let us = 1000.0 * f64::from(rtt_ms);
        let off = (self.average_us - us).abs();
        Smoothers {
            average_us: self.average_us + (us - self.average_us) * 0.125,
            variation_us: self.variation_us + (off - self.variation_us) * 0.25,
            whole_ms: whole_step(self.whole_ms, u64::from(rtt_ms)),
        }
    }
}
