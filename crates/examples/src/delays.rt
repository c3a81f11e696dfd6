// The delay window: its trend, its ring and its refusals; and the spin bit's round trip.
use crate::lines::{Lines, Shown};
use algorithms::owd::OwdTrendDetector;
use algorithms::spin::SpinBitState;

// Pairs (0 ms, 0 µs), (1000, 1000): trend 1000.
pub fn trend(out: &mut impl Lines) -> Shown {
    let mut times = [0; 2];
    let mut delays = [0; 2];
    let window = OwdTrendDetector::new(2)
        .push(&mut times, &mut delays, 0, 0)?
        .push(&mut times, &mut delays, 1000, 1000)?;
    let trend = window.trend_us_per_sec(&times, &delays);
    out.refusal("trend of (0, 0), (1000, 1000): refusal", trend, 0)?;
    out.holds("trend of (0, 0), (1000, 1000) is 1000", trend? == 1000)?;
    out.number("live pairs", window.count as u64, 2)
}

// A capacity that is asked for is clamped to 2 to 256.
pub fn capacity(out: &mut impl Lines) -> Shown {
    for (name, size, capacity) in [
        ("0", 0, 2),
        ("1", 1, 2),
        ("2", 2, 2),
        ("256", 256, 256),
        ("257", 257, 256),
        ("2^64 - 1", usize::MAX, 256),
    ] {
        out.number(
            format_args!("a window of {name}: capacity"),
            OwdTrendDetector::new(size).capacity as u64,
            capacity,
        )?;
    }
    out.refusal(
        "a time window of 3 beside capacity 2",
        OwdTrendDetector::new(2).trend_us_per_sec(&[0; 3], &[0; 2]),
        4,
    )
}

fn with_two_pairs(capacity: usize) -> OwdTrendDetector {
    OwdTrendDetector {
        capacity,
        count: 2,
        first: 0,
    }
}

// A wider window breaks the rule, and that is asked before the buffers' lengths.
pub fn too_wide(out: &mut impl Lines) -> Shown {
    let most = with_two_pairs(256);
    out.holds("capacity 256 keeps the rule", most.keeps_rule())?;
    out.holds("capacity 257 does not", !with_two_pairs(257).keeps_rule())?;
    let mut times = [7; 300];
    let mut delays = [7; 300];
    let wide = with_two_pairs(300);
    out.refusal(
        "capacity 300, buffers of 300: trend",
        wide.trend_us_per_sec(&times, &delays),
        1,
    )?;
    out.refusal(
        "capacity 300, buffers of 300: push",
        wide.push(&mut times, &mut delays, 9, 9),
        1,
    )?;
    out.holds("no slot is written", (times[2] == 7) & (delays[2] == 7))?;
    out.refusal(
        "capacity 256, buffers of 300: trend",
        most.trend_us_per_sec(&times, &delays),
        4,
    )
}

// The initiator measures from edge to edge; a clock that falls gives 0.
pub fn spin(out: &mut impl Lines) -> Shown {
    let (one, rtt_ms) = SpinBitState::new(true).rx_observe(false, 1, 1000)?;
    out.number("spin, first edge: no round trip", rtt_ms.unwrap_or(77), 77)?;
    let (two, rtt_ms) = one.rx_observe(true, 2, 1040)?;
    out.number("spin, second edge 40 ms later", rtt_ms.unwrap_or(77), 40)?;
    let (_, rtt_ms) = two.rx_observe(false, 3, 1000)?;
    out.number(
        "spin, third edge with a clock that fell",
        rtt_ms.unwrap_or(77),
        0,
    )?;
    out.refusal("spin, clock 2^48", two.rx_observe(false, 3, 1 << 48), 2)
}
