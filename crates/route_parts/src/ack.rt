//! The acknowledgement of a part.

ghost use Rattle.std.specs.Prelude.{◌≡◌, ◌<◌, ◌^◌, ◌++◌, ◌∷◌, Some, length, IfOk, IfErr, OnOk};
ghost use Rattle.std.specs.Int.{w16, w32, to_be_bytes};
ghost use Rattle.world_defs.specs.Mapping.{mapping_bytes, decode_mapping};
ghost use Rattle.route_parts.specs.Reading.{ack_body, ack_in, missing};

use crate::fault::BodyFault;
use crate::fronts::{byte_front, two_front};
use std::alloc::{AllocError, Global};
use world_defs::mapping_is_read;

// The kind of its body.
const KIND: u8 = 5;

/// The bytes of an acknowledgement.
pub const ACK_LENGTH: usize = 8;

// Those of them before the number of the part.
const FRONT_LENGTH: usize = 7;

/// A host's answer to a part: it has taken it.
#[derive(Clone, Copy, Debug, PartialEq, Eq)]
pub struct PartAck {
    /// Which set of routes the part is of.
    pub epoch: u32,
    /// The host whose table the part is of.
    pub host: u16,
    /// The number of the part, from 0.
    pub part: u8,
}

impl PartAck {
    /// Its bytes.
    pub fn encode(&self, alloc: Global) -> Result<Vec<u8>, AllocError>
        ensures bytes { IfOk result (λ bytes. bytes.items ≡ mapping_bytes (ack_body self.now)) }
        ensures read { IfOk result (λ bytes. decode_mapping bytes.items ≡ Some (ack_body self.now)) }
    {
        mapping_is_read();
        let mut bytes = Vec::with_capacity(alloc, ACK_LENGTH)?;
        self.append(&mut bytes)?;
        Ok(bytes)
    }

    /// Its bytes after others, as the front of a packet: so it needs no buffer of its own. Where memory runs out, a
    /// part of them may stand there.
    pub fn append(&self, bytes: &mut Vec<u8>) -> Result<(), AllocError>
        ensures bytes { OnOk result (bytes.new.items ≡ bytes.old.items ++ mapping_bytes (ack_body self.now)) }
        ensures few { length (mapping_bytes (ack_body self.now)) ≡ 8 }
        ensures fit { OnOk result ((self.now.epoch < 2 ^ 32) × (self.now.host < 2 ^ 16) × (self.now.part < 256)) }
    {
        let part = self.part;
        bytes.extend_from_slice(&self.front())?;
        bytes.push(part)?;
        Ok(())
    }

    // Its bytes without the number of the part.
    fn front(&self) -> [u8; FRONT_LENGTH]
        ensures bytes { result ≡ 5 ∷ to_be_bytes w32 self.now.epoch ++ to_be_bytes w16 self.now.host }
        ensures fit { (self.now.epoch < 2 ^ 32) × (self.now.host < 2 ^ 16) }
    {
        let (epoch, host) = (self.epoch, self.host);
        let [e0, e1, e2, e3] = epoch.to_be_bytes();
        let [h0, h1] = host.to_be_bytes();
        [KIND, e0, e1, e2, e3, h0, h1]
    }

    /// The acknowledgement that is all of the bytes. `Malformed` exactly where they are none; it takes no memory.
    pub fn decode(bytes: &[u8]) -> Result<PartAck, BodyFault>
        ensures ok { IfOk result (λ ack. decode_mapping bytes.now ≡ Some (ack_body ack)) }
        ensures refused { IfErr result (λ fault. missing (ack_in bytes.now) ≡ Some fault) }
    {
        let Some((KIND, rest)) = byte_front(bytes) else {
            return Err(BodyFault::Malformed);
        };
        let Some(((epoch, host), rest)) = two_front(rest) else {
            return Err(BodyFault::Malformed);
        };
        match byte_front(rest) {
            Some((part, [])) => Ok(PartAck { epoch, host, part }),
            _ => Err(BodyFault::Malformed),
        }
    }
}
