// PathMtuNotification (2 bytes).
ghost use Rattle.std.specs.Prelude.{◌≡◌};
ghost use Rattle.refusals.specs.Answers.{passed};
ghost use Rattle.wire.specs.PathMtu.{notification, decoded, taken, encode_answer, encoded_into};

use crate::payload::u16_in;
use codec::Place;
use codec::reader::{TooShort, require};
use refusals::refusal::Refusal;

#[derive(Clone, Copy)]
pub struct PathMtuNotification {
    pub path_mtu: u16,
}

impl PathMtuNotification {
    pub fn new(path_mtu: u16) -> Self
        ensures { result ≡ notification path_mtu }
    {
        Self { path_mtu }
    }

    // Writes 2 bytes, or refuses and writes nothing.
    #[tactic(auto, using(crate::proofs::Messages::notification_room, crate::proofs::Messages::notification_no_room, crate::proofs::Messages::notification_written, crate::proofs::Messages::notification_unwritten))]
    pub fn encode(self, out: &mut [u8]) -> Result<(), Refusal>
        ensures answer { result ≡ passed (encode_answer out.old) }
        ensures bytes { out.new ≡ encoded_into out.old self }
    {
        let Some(place) = out.first_chunk_mut() else {
            return Err(Refusal::OutputBuffer);
        };
        *place = self.path_mtu.to_le_bytes();
        Ok(())
    }

    #[tactic(auto, using(crate::proofs::Decoded::notification_read, crate::proofs::Decoded::notification_short, codec::proofs::Lengths::room))]
    pub fn decode(body: &[u8]) -> Result<Self, TooShort>
        ensures { result ≡ taken (decoded body.now) }
    {
        // let .. else and no `?`: the rules of the project name this form here.
        let Ok(()) = require(body, Place { pos: 0 }, 2) else {
            return Err(TooShort {
                needed: 2,
                given: body.len(),
            });
        };
        Ok(Self {
            path_mtu: u16_in(body, 0),
        })
    }
}
