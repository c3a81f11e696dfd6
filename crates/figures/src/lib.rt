// What one receiver report says of a link, each figure from a few numbers: metrics.rs without its record. `_unchecked` is for a record that has asked the
// questions.

#![tactic(auto)]

ghost use Rattle.std.specs.Prelude.{◌≡◌};
ghost use Rattle.figures.specs.Stale.{counters_of, saved, stale};
ghost use Rattle.figures.specs.RoundTrips.{round_trip, milliseconds_of, tallies_ok};
ghost use Rattle.figures.specs.Delivery.{delivery_ratio};
ghost use Rattle.figures.specs.Goodput.{goodput_ok, toward_rate, goodput_over, goodput_after};

use algorithms::srtt::SrttEstimator;
use wire::receiver_report::ReceiverReport;

// 2^74: the greatest goodput, in bytes per second.
pub const MAX_GOODPUT: f64 = 18_889_465_931_478_580_854_784.0;

// --- Stale reports ---

// The counters of a report that the stale test goes by.
#[derive(Clone, Copy, PartialEq, Eq)]
pub struct Counters {
    pub highest: u64,
    pub packets: u64,
    pub bytes: u64,
    pub ecn: u32,
    pub reorders: u32,
}

impl From<ReceiverReport> for Counters {
    ghost from_gives = { λ rr counters. counters ≡ counters_of rr };

    fn from(rr: ReceiverReport) -> Counters {
        Counters {
            highest: rr.highest_counter,
            packets: rr.cumulative_packets_recv,
            bytes: rr.cumulative_bytes_recv,
            ecn: rr.ecn_ce_count,
            reorders: rr.cumulative_reorder_count,
        }
    }
}

// Whether a report is stale beside the counters of the one that is kept: one of them fell, or all five are equal.
#[tactic(auto, unfolding(crate::specs::Stale::stale, crate::specs::Stale::fell, crate::specs::Stale::same))]
pub fn is_stale(kept: Counters, rr: ReceiverReport) -> bool
    ensures { result ≡ stale (saved kept) rr }
{
    let new = Counters::from(rr);
    new.highest < kept.highest
        || new.packets < kept.packets
        || new.bytes < kept.bytes
        || new.ecn < kept.ecn
        || new.reorders < kept.reorders
        || new == kept
}

// --- Round trip ---

// What a report's echo says of the round trip.
#[derive(Clone, Copy)]
pub enum RoundTrip {
    // The report carried no timestamp echo.
    NoEcho,
    // Whole milliseconds, above 0.
    Sample(u32),
    // Less than a millisecond: the same host, or loopback.
    Zero,
    // Our time is before the echo and the dwell: a wrapped or bogus echo.
    ArithFail,
}

// Our time less the echo and the dwell.
#[tactic(auto, unfolding(crate::specs::RoundTrips::round_trip))]
pub fn round_trip(rr: ReceiverReport, our_timestamp_ms: u32) -> RoundTrip
    ensures { result ≡ round_trip rr our_timestamp_ms }
{
    if rr.timestamp_echo == 0 {
        return RoundTrip::NoEcho;
    }
    let send_done_ms = u64::from(rr.timestamp_echo) + u64::from(rr.dwell_time);
    match u64::from(our_timestamp_ms).checked_sub(send_done_ms) {
        None => RoundTrip::ArithFail,
        Some(0) => RoundTrip::Zero,
        Some(ms) => RoundTrip::Sample(ms as u32),
    }
}

// The smoothed round trip in milliseconds, whether or not there has been one.
pub fn smoothed_ms_unchecked(srtt: SrttEstimator) -> f64
    ensures { result ≡ milliseconds_of srtt.srtt_us }
{
    floats::nearest_i64_to_f64(srtt.srtt_us) / 1000.0
}

// How many reports were seen, and how many of each of the five kinds.
#[derive(Clone, Copy)]
pub struct Tallies {
    pub reports_seen: u64,
    pub stale: u64,
    pub no_echo: u64,
    pub samples: u64,
    pub zeros: u64,
    pub failures: u64,
}

// The rule of the six counts: every report seen is of one of five kinds. Each kind is taken off what is left of the reports, so that no sum can wrap.
pub fn tallies_ok(t: Tallies) -> bool
    ensures { result ≡ tallies_ok t.reports_seen t.stale t.no_echo t.samples t.zeros t.failures }
{
    let Some(fresh) = t.reports_seen.checked_sub(t.stale) else {
        return false;
    };
    let Some(echoes) = fresh.checked_sub(t.no_echo) else {
        return false;
    };
    let Some(invalid) = echoes.checked_sub(t.samples) else {
        return false;
    };
    let Some(failures) = invalid.checked_sub(t.zeros) else {
        return false;
    };
    t.failures == failures
}

// --- Delivery ---

// The packets that came of those that were sent, from 0 to 1. The caller leaves a span of 0 out.
#[tactic(auto, unfolding(crate::specs::Delivery::delivery_ratio, floats::specs::Operations::clamped, floats::specs::Operations::rounded_quotient))]
pub fn delivery_ratio_unchecked(packets: u64, span: u64) -> f64
    ensures { result ≡ delivery_ratio packets span }
{
    floats::clamp(floats::quotient(packets, span), 0.0, 1.0)
}

// --- Goodput ---

// The rule of a goodput.
pub fn goodput_ok(x: f64) -> bool
    ensures { result ≡ goodput_ok x }
{
    floats::in_range(x, 0.0, MAX_GOODPUT)
}

// The first rate is the goodput; a later one moves it by one quarter.
#[tactic(auto, unfolding(crate::specs::Goodput::toward_rate))]
fn toward_rate(goodput: f64, bps: f64) -> f64
    ensures { result ≡ toward_rate goodput bps }
{
    if goodput == 0.0 {
        bps
    } else {
        goodput + (bps - goodput) * 0.25
    }
}

// The goodput after so many bytes in so many milliseconds. No time leaves it.
fn goodput_over(goodput: f64, bytes: u64, ms: u64) -> f64
    ensures { result ≡ goodput_over goodput bytes ms }
{
    let secs = floats::nearest_u64_to_f64(ms) / 1000.0;
    if secs > 0.0 {
        let bps = floats::nearest_u64_to_f64(bytes) / secs;
        toward_rate(goodput, bps)
    } else {
        goodput
    }
}

// The goodput after a report. Without the time of the one before it stays; a clock that fell counts as no time.
#[tactic(auto, unfolding(crate::specs::Goodput::goodput_after, crate::specs::Goodput::goodput_over, crate::specs::Goodput::toward_rate, crate::specs::Goodput::rate_of, crate::specs::Goodput::seconds_of))]
pub fn goodput_after_unchecked(goodput: f64, bytes: u64, prev_ms: Option<u64>, now_ms: u64) -> f64
    ensures { result ≡ goodput_after goodput bytes prev_ms now_ms }
{
    prev_ms.map_or(
        goodput,
        |ms| goodput_over(goodput, bytes, now_ms.saturating_sub(ms)),
    )
}
