// The expected transmission count, and the quality index.

ghost use Rattle.std.specs.Prelude.{◌≡◌};
ghost use Rattle.refusals.specs.Answers.{told};
ghost use Rattle.algorithms.specs.Etx.{etx_of, etx_answer, quality_of, quality_answer};

use refusals::questions::Questions;
use refusals::ranges::{MAX_ETX, etx_ok, ratio_ok, rtt_ms_ok};
use refusals::refusal::Refusal;

// ETX from the delivery ratios of both directions, with no question asked.
pub fn compute_etx_unchecked(d_forward: f64, d_reverse: f64) -> f64
    ensures { result ≡ etx_of d_forward d_reverse }
{
    let product = d_forward * d_reverse;
    if product <= 0.0 {
        return MAX_ETX;
    }
    floats::clamp(1.0 / product, 1.0, MAX_ETX)
}

// Expected transmission count from the delivery ratios of both directions.
#[tactic(auto, unfolding(crate::specs::Etx::etx_answer, refusals::specs::Questions::first_no, refusals::specs::Questions::asked, refusals::specs::Answers::answered, refusals::specs::Answers::answer))]
pub fn compute_etx(d_forward: f64, d_reverse: f64) -> Result<f64, Refusal>
    ensures { result ≡ told (etx_answer d_forward d_reverse) }
{
    let mut q = Questions::all_yes();
    q.values = ratio_ok(d_forward) & ratio_ok(d_reverse);
    q.first_no()?;
    Ok(compute_etx_unchecked(d_forward, d_reverse))
}

// etx × (1 + rtt_ms / 100), with no question asked.
pub fn quality_index_unchecked(etx: f64, rtt_ms: f64) -> f64
    ensures { result ≡ quality_of etx rtt_ms }
{
    etx * (1.0 + rtt_ms / 100.0)
}

// The quality index of a link, path or session: lower is better, 1.0 ideal.
#[tactic(auto, unfolding(crate::specs::Etx::quality_answer, refusals::specs::Questions::first_no, refusals::specs::Questions::asked, refusals::specs::Answers::answered, refusals::specs::Answers::answer))]
pub fn quality_index(etx: f64, rtt_ms: f64) -> Result<f64, Refusal>
    ensures { result ≡ told (quality_answer etx rtt_ms) }
{
    let mut q = Questions::all_yes();
    q.values = etx_ok(etx) & rtt_ms_ok(rtt_ms);
    q.first_no()?;
    Ok(quality_index_unchecked(etx, rtt_ms))
}
