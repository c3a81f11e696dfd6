// One-way delay from a reference.

ghost use Rattle.std.specs.Prelude.{◌≡◌, ◌<◌, ◌^◌, set};
ghost use Rattle.algorithms.specs.Owd.{free, stored};
ghost use Rattle.samples.specs.Delay.{reference_ok, too_old, restarts, base_of, age_of, sent_ms, delay_us, window_for, delay_of, pushed, sample_refusal, sample_of, sampled_as};

use algorithms::owd::OwdTrendDetector;
use refusals::questions::Questions;
use refusals::ranges::clock_ok;
use refusals::refusal::Refused;

// The age at which the one-way delay reference restarts: sender time changes sign at 2^31, so this leaves a wide margin.
pub const OWD_REF_SPAN_MS: u64 = 1 << 30;

// A reference: the receive time and the sender's timestamp of the frame that every delay is measured from.
#[derive(Clone, Copy)]
pub struct OwdBase {
    pub recv_ms: u64,
    pub sender_timestamp: u32,
}

// A delay window, and what its delays are measured from.
#[derive(Clone, Copy)]
pub struct OwdSamples {
    pub owd_trend: OwdTrendDetector,
    pub owd_ref: Option<OwdBase>,
}

// The rule of a reference: absent, or its clock in range.
pub fn reference_ok(owd_ref: Option<OwdBase>) -> bool
    ensures { result ≡ reference_ok owd_ref }
{
    owd_ref.is_none_or(|base| clock_ok(base.recv_ms))
}

// Whether a reference that came at this time is too old.
fn too_old(recv_ms: u64, now_ms: u64) -> bool
    ensures { result ≡ too_old recv_ms now_ms }
{
    OWD_REF_SPAN_MS <= now_ms.saturating_sub(recv_ms)
}

// Whether the reference is too old.
fn restarts(owd_ref: Option<OwdBase>, now_ms: u64) -> bool
    ensures { result ≡ restarts owd_ref now_ms }
{
    owd_ref.is_some_and(|base| too_old(base.recv_ms, now_ms))
}

// What this sample is measured from: itself where there is no reference, or one too old.
#[tactic(auto, unfolding(crate::specs::Delay::younger))]
pub fn base_of_unchecked(owd_ref: Option<OwdBase>, now_ms: u64, timestamp: u32) -> OwdBase
    ensures { result ≡ base_of owd_ref now_ms timestamp }
{
    match owd_ref {
        Some(base) if !too_old(base.recv_ms, now_ms) => base,
        _ => OwdBase {
            recv_ms: now_ms,
            sender_timestamp: timestamp,
        },
    }
}

// The sender's step, modulo 2^32 and read as signed.
fn sent_ms(timestamp: u32, from: u32) -> i32
    ensures { result ≡ sent_ms timestamp from }
{
    timestamp.wrapping_sub(from).cast_signed()
}

// The age less the sender's step, in µs.
#[tactic(auto, unfolding(crate::specs::Delay::delay_us))]
fn delay_us(age_ms: u64, sent_ms: i32) -> i64
    requires { age_ms < 2 ^ 30 }
    ensures { result ≡ delay_us age_ms sent_ms }
{
    1000 * (age_ms.cast_signed() - i64::from(sent_ms))
}

// The window that a sample is pushed to: cleared where the reference restarts.
#[tactic(auto, unfolding(crate::specs::Delay::window_for))]
fn window_for(window: OwdTrendDetector, owd_ref: Option<OwdBase>, now_ms: u64) -> OwdTrendDetector
    ensures { result ≡ window_for window owd_ref now_ms }
{
    if restarts(owd_ref, now_ms) {
        window.clear_unchecked()
    } else {
        window
    }
}

// Push one one-way delay sample, measured from the reference frame, at its receive offset. Not `OwdSamples`: the reference is read, and the window alone comes back.
pub fn sample_owd_unchecked(
    window: OwdTrendDetector,
    owd_ref: Option<OwdBase>,
    times: &mut [u32],
    delays: &mut [i64],
    timestamp: u32,
    now_ms: u64,
) -> OwdTrendDetector
    ensures answer { result ≡ pushed window owd_ref now_ms }
    ensures times { times.new ≡ set times.old (free (window_for window owd_ref now_ms)) (age_of owd_ref timestamp now_ms) }
    ensures delays { delays.new ≡ set delays.old (free (window_for window owd_ref now_ms)) (delay_of owd_ref timestamp now_ms) }
{
    let base = base_of_unchecked(owd_ref, now_ms, timestamp);
    let age = now_ms.saturating_sub(base.recv_ms);
    let us = delay_us(age, sent_ms(timestamp, base.sender_timestamp));
    let live = window_for(window, owd_ref, now_ms);
    live.push_unchecked(times, delays, age as u32, us)
}

// The same after its questions, with the reference after it. Every sample answers yes to question 5.
#[tactic(auto, unfolding(crate::specs::Delay::sample_of, crate::specs::Delay::sample_refusal, algorithms::specs::Owd::stored, refusals::specs::Questions::first_no, refusals::specs::Questions::asked, refusals::specs::Answers::admitted, refusals::specs::Answers::settled), using(crate::proofs::DelayInRange::delay_in_range))]
pub fn sample_owd(
    owd: OwdSamples,
    times: &mut [u32],
    delays: &mut [i64],
    timestamp: u32,
    now_ms: u64,
) -> Result<OwdSamples, Refused<OwdSamples>>
    ensures answer { result ≡ sampled_as (sample_of owd.owd_trend owd.owd_ref times.old delays.old timestamp now_ms) }
    ensures times { times.new ≡ stored (sample_refusal owd.owd_trend owd.owd_ref times.old delays.old timestamp now_ms) (window_for owd.owd_trend owd.owd_ref now_ms) (age_of owd.owd_ref timestamp now_ms) times.old }
    ensures delays { delays.new ≡ stored (sample_refusal owd.owd_trend owd.owd_ref times.old delays.old timestamp now_ms) (window_for owd.owd_trend owd.owd_ref now_ms) (delay_of owd.owd_ref timestamp now_ms) delays.old }
{
    let OwdSamples { owd_trend, owd_ref } = owd;
    let mut q = Questions::all_yes();
    q.state = owd_trend.keeps_rule() & reference_ok(owd_ref);
    q.clocks = clock_ok(now_ms);
    q.windows = owd_trend.windows_ok(times.len(), delays.len());
    q.admit(owd)?;
    let base = base_of_unchecked(owd_ref, now_ms, timestamp);
    Ok(OwdSamples {
        owd_trend: sample_owd_unchecked(owd_trend, owd_ref, times, delays, timestamp, now_ms),
        owd_ref: Some(base),
    })
}
