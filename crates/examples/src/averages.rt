// The table of document 01, "Promises and the checked examples": the rows of the averages.
use crate::lines::{Lines, Shown};
use numbers::{jitter_step, rttvar_step, srtt_step};

// J 0, D 16, then 0: J 16, then 15; reported 1, 0. And D −2^31: reported 134217728.
pub fn jitter(out: &mut impl Lines) -> Shown {
    let first = jitter_step(0, 16);
    out.number("J 0, D 16: J", first, 16)?;
    out.number("J 0, D 16: reported", first / 16, 1)?;
    let second = jitter_step(first, 0);
    out.number("then D 0: J", second, 15)?;
    out.number("then D 0: reported", second / 16, 0)?;
    let greatest = jitter_step(0, 1 << 31);
    out.number("J 0, |D| 2^31: reported", greatest / 16, 134_217_728)
}

// RTT 3000, 11000, 3000: SRTT 3000, 4000, 3875; RTTVAR 1500, 3125, 2594.
pub fn round_trip(out: &mut impl Lines) -> Shown {
    let rttvar = rttvar_step(1500, 3000, 11000);
    let srtt = srtt_step(3000, 11000);
    out.number("RTT 3000, 11000: SRTT", srtt, 4000)?;
    out.number("RTT 3000, 11000: RTTVAR", rttvar, 3125)?;
    out.number("then 3000: SRTT", srtt_step(srtt, 3000), 3875)?;
    out.number("then 3000: RTTVAR", rttvar_step(rttvar, srtt, 3000), 2594)
}

// "Never below" needs round trips that are multiples of 8 µs: after 0 and 1 the exact average is 8/64, and SRTT is 0.
pub fn below_the_average(out: &mut impl Lines) -> Shown {
    let srtt = srtt_step(0, 1);
    let exact_over_64 = 7 * 0 + 8 * 1;
    out.number("RTT 0, 1: SRTT", srtt, 0)?;
    out.holds(
        "RTT 0, 1: SRTT is below the exact average",
        srtt * 64 < exact_over_64,
    )
}
