// The transit difference of a sampled frame, and the jitter after it.

ghost use Rattle.std.specs.Prelude.{◌≡◌};
ghost use Rattle.samples.specs.Transit.{in_grace, transit, jitter_after};

use algorithms::jitter::JitterEstimator;

// The sender's timestamps come again after so many ms.
const TIMESTAMP_SPAN: u64 = 1 << 32;

// Whether a rekey's grace lasts: its deadline is not reached.
pub fn in_grace(deadline_ms: Option<u64>, now_ms: u64) -> bool
    ensures { result ≡ in_grace deadline_ms now_ms }
{
    deadline_ms.is_some_and(|deadline| now_ms < deadline)
}

// D: the receive step less the sender's, in µs, in 32 bits.
fn transit(step_ms: u64, timestamp: u32, last_timestamp: u32) -> i32
    ensures { result ≡ transit step_ms timestamp last_timestamp }
{
    let sent = timestamp.wrapping_sub(last_timestamp);
    let ms = ((step_ms % TIMESTAMP_SPAN) as u32).wrapping_sub(sent);
    ms.wrapping_mul(1000).cast_signed()
}

// The jitter after a sample. The first sample has no step.
pub fn jitter_after_unchecked(
    jitter: JitterEstimator,
    last_recv_ms: Option<u64>,
    last_timestamp: u32,
    timestamp: u32,
    now_ms: u64,
) -> JitterEstimator
    ensures { result ≡ jitter_after jitter last_recv_ms last_timestamp timestamp now_ms }
{
    match last_recv_ms {
        None => jitter,
        Some(last) => {
            let step = now_ms.saturating_sub(last);
            jitter.update_unchecked(transit(step, timestamp, last_timestamp))
        }
    }
}
