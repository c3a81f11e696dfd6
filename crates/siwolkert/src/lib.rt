// What the Rust daemon and the differential tests call, through the exports of `siwolkert_c`, which have the same names. The status is the return value, a number for C: 0, or that of the refusal.

#![tactic(auto)]

pub mod lent; // lent.rt: the sender's record

ghost use Rattle.std.specs.Prelude.{◌≡◌};
ghost use Rattle.siwolkert.specs.PayloadCheck.{check_status, check_needed, check_given};
ghost use Rattle.siwolkert.specs.Figures.{jitter_status, jitter_into, etx_status, etx_into};

use algorithms::etx::compute_etx;
use algorithms::jitter::JitterEstimator;
use codec::Place;
use codec::reader::require;
use refusals::refusal::Refusal;

// Whether a payload is long enough for a sender's report. Where it is not, 7, with the needed and the given length.
pub fn siwolkert_check_sender_payload(payload: &[u8], needed: &mut u64, given: &mut u64) -> u8
    ensures { (result ≡ check_status 47 payload.now)
        × (needed.new ≡ check_needed 47 payload.now needed.old)
        × (given.new ≡ check_given 47 payload.now given.old) }
{
    payload_check(payload, 47, needed, given)
}

// The same for a receiver's report.
pub fn siwolkert_check_receiver_payload(payload: &[u8], needed: &mut u64, given: &mut u64) -> u8
    ensures { (result ≡ check_status 67 payload.now)
        × (needed.new ≡ check_needed 67 payload.now needed.old)
        × (given.new ≡ check_given 67 payload.now given.old) }
{
    payload_check(payload, 67, needed, given)
}

#[tactic(auto, unfolding(crate::specs::PayloadCheck::check_status, crate::specs::PayloadCheck::check_needed, crate::specs::PayloadCheck::check_given, codec::specs::Reading::values_of, codec::specs::Reading::by_length))]
fn payload_check(payload: &[u8], n: usize, needed: &mut u64, given: &mut u64) -> u8
    ensures { (result ≡ check_status n payload.now)
        × (needed.new ≡ check_needed n payload.now needed.old)
        × (given.new ≡ check_given n payload.now given.old) }
{
    match require(payload, Place { pos: 0 }, n) {
        Ok(()) => 0,
        Err(short) => {
            *needed = short.needed as u64;
            *given = short.given as u64;
            Refusal::from(short).into()
        }
    }
}

// The jitter step: scaled jitter and a transit delta in, the new scaled jitter out.
#[tactic(auto, unfolding(crate::specs::Figures::jitter_into, algorithms::specs::Jitter::update_of, refusals::specs::Answers::settled), using(crate::proofs::JitterRefused::jitter_refused))]
pub fn siwolkert_jitter_update(jitter_q4: i64, transit_delta: i32, updated: &mut i64) -> u8
    ensures { (result ≡ jitter_status jitter_q4) × (updated.new ≡ jitter_into jitter_q4 transit_delta updated.old) }
{
    match (JitterEstimator { jitter_q4 }).update(transit_delta) {
        Ok(state) => {
            *updated = state.jitter_q4;
            0
        }
        Err(refused) => refused.refusal.into(),
    }
}

// The expected transmission count of two delivery ratios.
#[tactic(auto, unfolding(crate::specs::Figures::etx_into, algorithms::specs::Etx::etx_answer, refusals::specs::Questions::first_no, refusals::specs::Answers::answer, refusals::specs::Answers::answered, refusals::specs::Answers::numbered))]
pub fn siwolkert_compute_etx(d_forward: f64, d_reverse: f64, etx: &mut f64) -> u8
    ensures { (result ≡ etx_status d_forward d_reverse) × (etx.new ≡ etx_into d_forward d_reverse etx.old) }
{
    match compute_etx(d_forward, d_reverse) {
        Ok(value) => {
            *etx = value;
            0
        }
        Err(refusal) => refusal.into(),
    }
}
