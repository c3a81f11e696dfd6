// How far SRTT and RTTVAR have been from the exact averages.

#[derive(Clone, Copy)]
pub struct Extremes {
    // SRTT - S.
    pub least: f64,
    pub greatest: f64,
    // |RTTVAR - V|.
    pub variation: f64,
}

impl Extremes {
    pub const NONE: Extremes = Extremes {
        least: f64::INFINITY,
        greatest: f64::NEG_INFINITY,
        variation: 0.0,
    };

    // Those of both spans of time.
    pub fn and(self, other: Extremes) -> Extremes {
        Extremes {
            least: self.least.min(other.least),
            greatest: self.greatest.max(other.greatest),
            variation: self.variation.max(other.variation),
        }
    }
}
