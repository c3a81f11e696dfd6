// SenderReport (msg_type 0x01, 48 bytes including the type byte).
ghost use Rattle.std.specs.Prelude.{◌≡◌, ◌≤◌, length};
ghost use Rattle.refusals.specs.Answers.{passed};
ghost use Rattle.wire.specs.SenderReport.{report_in, no_report, decoded, decoded_at, taken, encoded, encode_answer, encoded_into};

use crate::payload::{u32_in, u64_in};
use codec::Place;
use codec::fields::{put_u8, put_u32, put_u64};
use codec::reader::{TooShort, needed_for, require, rest};
use refusals::refusal::Refusal;

#[repr(C)]
#[derive(Clone, Copy)]
pub struct SenderReport {
    pub interval_start_counter: u64,
    pub interval_end_counter: u64,
    pub interval_start_timestamp: u32,
    pub interval_end_timestamp: u32,
    pub interval_bytes_sent: u32,
    pub cumulative_packets_sent: u64,
    pub cumulative_bytes_sent: u64,
}

impl SenderReport {
    // Writes 48 bytes, or refuses and writes nothing.
    #[tactic(auto, using(crate::proofs::Messages::sender_room, crate::proofs::Messages::sender_no_room, crate::proofs::Messages::sender_written, crate::proofs::Messages::sender_unwritten))]
    pub fn encode(self, out: &mut [u8]) -> Result<(), Refusal>
        ensures answer { result ≡ passed (encode_answer out.old) }
        ensures bytes { out.new ≡ encoded_into out.old self }
    {
        let Some(place) = out.first_chunk_mut() else {
            return Err(Refusal::OutputBuffer);
        };
        *place = block_of(self);
        Ok(())
    }

    // The payload starts at the reserved bytes, after the type byte.
    #[tactic(auto, unfolding(crate::specs::SenderReport::decoded, crate::specs::SenderReport::decoded_at))]
    pub fn decode(payload: &[u8]) -> Result<SenderReport, TooShort>
        ensures { result ≡ taken (decoded payload.now) }
    {
        decode_at(payload, 0)
    }
}

// Every field 0, where there is no report.
#[tactic(auto, unfolding(crate::specs::SenderReport::no_report))]
pub fn no_report() -> SenderReport
    ensures { result ≡ no_report }
{
    SenderReport {
        interval_start_counter: 0,
        interval_end_counter: 0,
        interval_start_timestamp: 0,
        interval_end_timestamp: 0,
        interval_bytes_sent: 0,
        cumulative_packets_sent: 0,
        cumulative_bytes_sent: 0,
    }
}

// The report from a position of the payload on; the needed length is counted from the payload's start. receiver_report.rt has functions of these names too: they differ
// in each length, field and definition, so a trait would hold all of it again.
#[tactic(auto, using(crate::proofs::Decoded::sender_read, crate::proofs::Decoded::sender_short, crate::proofs::Fields::rest_long))]
pub fn decode_at(payload: &[u8], pos: usize) -> Result<SenderReport, TooShort>
    ensures { result ≡ taken (decoded_at payload.now pos) }
{
    let at = Place { pos };
    // let .. else and no `?`: the rules of the project name this form here.
    let Ok(()) = require(payload, at, 47) else {
        return Err(TooShort {
            needed: needed_for(pos, 47),
            given: payload.len(),
        });
    };
    Ok(report_in(rest(payload, at)))
}

// The fields of a payload whose length has been asked for.
#[tactic(auto, unfolding(crate::specs::SenderReport::report_in))]
fn report_in(s: &[u8]) -> SenderReport
    requires { 47 ≤ length s.now }
    ensures { result ≡ report_in s.now }
{
    SenderReport {
        interval_start_counter: u64_in(s, 3),
        interval_end_counter: u64_in(s, 11),
        interval_start_timestamp: u32_in(s, 19),
        interval_end_timestamp: u32_in(s, 23),
        interval_bytes_sent: u32_in(s, 27),
        cumulative_packets_sent: u64_in(s, 31),
        cumulative_bytes_sent: u64_in(s, 39),
    }
}

// The report's bytes. Those that hold no field are 0.
#[tactic(auto, using(crate::proofs::Blocks::sender_block))]
fn block_of(r: SenderReport) -> [u8; 48]
    ensures { result ≡ encoded r }
{
    let mut b = [0; 48];
    put_u8(&mut b, 0, 1);
    put_u64(&mut b, 4, r.interval_start_counter);
    put_u64(&mut b, 12, r.interval_end_counter);
    put_u32(&mut b, 20, r.interval_start_timestamp);
    put_u32(&mut b, 24, r.interval_end_timestamp);
    put_u32(&mut b, 28, r.interval_bytes_sent);
    put_u64(&mut b, 32, r.cumulative_packets_sent);
    put_u64(&mut b, 40, r.cumulative_bytes_sent);
    b
}
