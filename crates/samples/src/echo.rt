// The echo of a report.

ghost use Rattle.std.specs.Prelude.{◌≡◌};
ghost use Rattle.samples.specs.Echo.{echo_after, echo_of};

// What a report says of the last sampled frame: its timestamp, and how long ago it came.
#[derive(Clone, Copy)]
pub struct Echo {
    pub timestamp_echo: u32,
    pub dwell_time: u16,
}

// A dwell that does not fit on the wire gives no valid round trip: no echo then.
#[tactic(auto, unfolding(crate::specs::Echo::echo_after))]
fn echo_after(timestamp: u32, dwell_ms: u64) -> Echo
    ensures { result ≡ echo_after timestamp dwell_ms }
{
    match u16::try_from(dwell_ms) {
        Ok(dwell_time) => Echo {
            timestamp_echo: timestamp,
            dwell_time,
        },
        Err(_) => Echo {
            timestamp_echo: 0,
            dwell_time: u16::MAX,
        },
    }
}

// The echo of a report at this time.
pub fn echo_of_unchecked(last_recv_ms: Option<u64>, timestamp: u32, now_ms: u64) -> Echo
    ensures { result ≡ echo_of last_recv_ms timestamp now_ms }
{
    match last_recv_ms {
        None => Echo {
            timestamp_echo: 0,
            dwell_time: 0,
        },
        Some(last) => echo_after(timestamp, now_ms.saturating_sub(last)),
    }
}
