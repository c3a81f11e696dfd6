// ReceiverReport (msg_type 0x02, 68 bytes including the type byte).
ghost use Rattle.std.specs.Prelude.{◌≡◌, ◌≤◌, length};
ghost use Rattle.refusals.specs.Answers.{passed};
ghost use Rattle.wire.specs.ReceiverReport.{report_in, no_report, decoded, decoded_at, taken, encoded, encode_answer, encoded_into};

use crate::payload::{i32_in, u16_in, u32_in, u64_in};
use codec::Place;
use codec::fields::{put_i32, put_u8, put_u16, put_u32, put_u64};
use codec::reader::{TooShort, needed_for, require, rest};
use refusals::refusal::Refusal;

#[derive(Clone, Copy)]
pub struct ReceiverReport {
    pub highest_counter: u64,
    pub cumulative_packets_recv: u64,
    pub cumulative_bytes_recv: u64,
    pub timestamp_echo: u32,
    pub dwell_time: u16,
    pub max_burst_loss: u16,
    pub mean_burst_loss: u16,
    pub jitter: u32,
    pub ecn_ce_count: u32,
    pub owd_trend: i32,
    pub burst_loss_count: u32,
    pub cumulative_reorder_count: u32,
    pub interval_packets_recv: u32,
    pub interval_bytes_recv: u32,
}

impl ReceiverReport {
    // Writes 68 bytes, or refuses and writes nothing.
    #[tactic(auto, using(crate::proofs::Messages::receiver_room, crate::proofs::Messages::receiver_no_room, crate::proofs::Messages::receiver_written, crate::proofs::Messages::receiver_unwritten))]
    pub fn encode(self, out: &mut [u8]) -> Result<(), Refusal>
        ensures answer { result ≡ passed (encode_answer out.old) }
        ensures bytes { out.new ≡ encoded_into out.old self }
    {
        let Some(place) = out.first_chunk_mut() else {
            return Err(Refusal::OutputBuffer);
        };
        *place = block_of(self);
        Ok(())
    }

    // The payload starts at the reserved bytes, after the type byte.
    #[tactic(auto, unfolding(crate::specs::ReceiverReport::decoded, crate::specs::ReceiverReport::decoded_at))]
    pub fn decode(payload: &[u8]) -> Result<ReceiverReport, TooShort>
        ensures { result ≡ taken (decoded payload.now) }
    {
        decode_at(payload, 0)
    }
}

#[tactic(auto, unfolding(crate::specs::ReceiverReport::no_report))]
pub fn no_report() -> ReceiverReport
    ensures { result ≡ no_report }
{
    ReceiverReport {
        highest_counter: 0,
        cumulative_packets_recv: 0,
        cumulative_bytes_recv: 0,
        timestamp_echo: 0,
        dwell_time: 0,
        max_burst_loss: 0,
        mean_burst_loss: 0,
        jitter: 0,
        ecn_ce_count: 0,
        owd_trend: 0,
        burst_loss_count: 0,
        cumulative_reorder_count: 0,
        interval_packets_recv: 0,
        interval_bytes_recv: 0,
    }
}

// The report from a position of the payload on; the needed length is counted from the payload's start.
#[tactic(auto, using(crate::proofs::Decoded::receiver_read, crate::proofs::Decoded::receiver_short, crate::proofs::Fields::rest_long))]
pub fn decode_at(payload: &[u8], pos: usize) -> Result<ReceiverReport, TooShort>
    ensures { result ≡ taken (decoded_at payload.now pos) }
{
    let at = Place { pos };
    // let .. else and no `?`: the rules of the project name this form here.
    let Ok(()) = require(payload, at, 67) else {
        return Err(TooShort {
            needed: needed_for(pos, 67),
            given: payload.len(),
        });
    };
    Ok(report_in(rest(payload, at)))
}

// The fields of a payload whose length has been asked for.
#[tactic(auto, unfolding(crate::specs::ReceiverReport::report_in))]
fn report_in(s: &[u8]) -> ReceiverReport
    requires { 67 ≤ length s.now }
    ensures { result ≡ report_in s.now }
{
    ReceiverReport {
        highest_counter: u64_in(s, 3),
        cumulative_packets_recv: u64_in(s, 11),
        cumulative_bytes_recv: u64_in(s, 19),
        timestamp_echo: u32_in(s, 27),
        dwell_time: u16_in(s, 31),
        max_burst_loss: u16_in(s, 33),
        mean_burst_loss: u16_in(s, 35),
        // 37 and 38 are reserved
        jitter: u32_in(s, 39),
        ecn_ce_count: u32_in(s, 43),
        owd_trend: i32_in(s, 47),
        burst_loss_count: u32_in(s, 51),
        cumulative_reorder_count: u32_in(s, 55),
        interval_packets_recv: u32_in(s, 59),
        interval_bytes_recv: u32_in(s, 63),
    }
}

// The report's bytes. Those that hold no field are 0.
#[tactic(auto, using(crate::proofs::Blocks::receiver_block))]
fn block_of(r: ReceiverReport) -> [u8; 68]
    ensures { result ≡ encoded r }
{
    let mut b = [0; 68];
    put_u8(&mut b, 0, 2);
    put_u64(&mut b, 4, r.highest_counter);
    put_u64(&mut b, 12, r.cumulative_packets_recv);
    put_u64(&mut b, 20, r.cumulative_bytes_recv);
    put_u32(&mut b, 28, r.timestamp_echo);
    put_u16(&mut b, 32, r.dwell_time);
    put_u16(&mut b, 34, r.max_burst_loss);
    put_u16(&mut b, 36, r.mean_burst_loss);
    put_u32(&mut b, 40, r.jitter);
    put_u32(&mut b, 44, r.ecn_ce_count);
    put_i32(&mut b, 48, r.owd_trend);
    put_u32(&mut b, 52, r.burst_loss_count);
    put_u32(&mut b, 56, r.cumulative_reorder_count);
    put_u32(&mut b, 60, r.interval_packets_recv);
    put_u32(&mut b, 64, r.interval_bytes_recv);
    b
}
