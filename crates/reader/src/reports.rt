// The decoding of each report: by a reader from its position on, and of a whole payload by a reader. Two functions of each: their names are public, and each is one call.
ghost use Rattle.std.specs.Prelude.{◌≡◌};
ghost use Rattle.wire.specs.SenderReport as Sender;
ghost use Rattle.wire.specs.ReceiverReport as Receiver;

use crate::Reader;
use codec::reader::TooShort;
use wire::receiver_report::{self, ReceiverReport};
use wire::sender_report::{self, SenderReport};

impl<'a> Reader<'a> {
    pub fn decode_sender_report(self) -> Result<SenderReport, TooShort>
        ensures { result ≡ Sender.taken (Sender.decoded_at self.entry.buf.now self.entry.at.pos) }
    {
        sender_report::decode_at(self.buf, self.at.pos)
    }

    pub fn decode_receiver_report(self) -> Result<ReceiverReport, TooShort>
        ensures { result ≡ Receiver.taken (Receiver.decoded_at self.entry.buf.now self.entry.at.pos) }
    {
        receiver_report::decode_at(self.buf, self.at.pos)
    }
}

// The same answer as `SenderReport::decode`.
#[tactic(auto, unfolding(wire::specs::SenderReport::decoded, wire::specs::SenderReport::decoded_at))]
pub fn decode_sender_report(payload: &[u8]) -> Result<SenderReport, TooShort>
    ensures { result ≡ Sender.taken (Sender.decoded payload.now) }
{
    Reader::new(payload).decode_sender_report()
}

#[tactic(auto, unfolding(wire::specs::ReceiverReport::decoded, wire::specs::ReceiverReport::decoded_at))]
pub fn decode_receiver_report(payload: &[u8]) -> Result<ReceiverReport, TooShort>
    ensures { result ≡ Receiver.taken (Receiver.decoded payload.now) }
{
    Reader::new(payload).decode_receiver_report()
}
