// What C and the Rust daemon link: each function of siwolkert as an export, under the same name, with the same clauses. The archive is libsiwolkert.a.

#![tactic(auto)]

pub mod lent; // lent.rt: the sender's record

ghost use Rattle.std.specs.Prelude.{◌≡◌};
ghost use Rattle.siwolkert.specs.PayloadCheck.{check_status, check_needed, check_given};
ghost use Rattle.siwolkert.specs.Figures.{jitter_status, jitter_into, etx_status, etx_into};

#[unsafe(no_mangle)]
pub extern "C" fn siwolkert_check_sender_payload(
    payload: &[u8],
    needed: &mut u64,
    given: &mut u64,
) -> u8
    ensures { (result ≡ check_status 47 payload.now)
        × (needed.new ≡ check_needed 47 payload.now needed.old)
        × (given.new ≡ check_given 47 payload.now given.old) }
{
    siwolkert::siwolkert_check_sender_payload(payload, needed, given)
}

#[unsafe(no_mangle)]
pub extern "C" fn siwolkert_check_receiver_payload(
    payload: &[u8],
    needed: &mut u64,
    given: &mut u64,
) -> u8
    ensures { (result ≡ check_status 67 payload.now)
        × (needed.new ≡ check_needed 67 payload.now needed.old)
        × (given.new ≡ check_given 67 payload.now given.old) }
{
    siwolkert::siwolkert_check_receiver_payload(payload, needed, given)
}

#[unsafe(no_mangle)]
pub extern "C" fn siwolkert_jitter_update(
    jitter_q4: i64,
    transit_delta: i32,
    updated: &mut i64,
) -> u8
    ensures { (result ≡ jitter_status jitter_q4) × (updated.new ≡ jitter_into jitter_q4 transit_delta updated.old) }
{
    siwolkert::siwolkert_jitter_update(jitter_q4, transit_delta, updated)
}

#[unsafe(no_mangle)]
pub extern "C" fn siwolkert_compute_etx(d_forward: f64, d_reverse: f64, etx: &mut f64) -> u8
    ensures { (result ≡ etx_status d_forward d_reverse) × (etx.new ≡ etx_into d_forward d_reverse etx.old) }
{
    siwolkert::siwolkert_compute_etx(d_forward, d_reverse, etx)
}
