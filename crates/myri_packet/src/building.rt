//! Building a packet.

ghost use Rattle.std.specs.Prelude.{◌≡◌, ◌≤◌, ◌∷◌, [], length, IfOk};
ghost use Rattle.packet_defs.specs.Packet.{packet_of, head_of, with_crc, type_of};

use crate::packet::Packet;
use packet_defs::{Kind, push_turns};
use std::alloc::{AllocError, Global};

/// The packet of a route, a kind and a payload, with the CRC that is due. Its turns are from -15 to 15: another has
/// no route byte, and its byte stops the packet, or turns it elsewhere.
pub fn encode(alloc: Global, route: &[i8], kind: Kind, payload: &[u8]) -> Result<Packet, AllocError>
    requires few { length route.now ≤ 64 }
    requires short { length payload.now ≤ 1040 }
    ensures { IfOk result (λ p. p ≡ packet_of route.now kind payload.now) }
{
    let mut bytes = packet_front(alloc, route, kind, payload.len())?;
    bytes.extend_from_slice(payload)?;
    seal(bytes)
}

/// What of a packet stands before its payload, with room for so many bytes of that. A payload that is written after
/// it needs no buffer of its own.
pub fn packet_front(
    alloc: Global,
    route: &[i8],
    kind: Kind,
    room: usize,
) -> Result<Vec<u8>, AllocError>
    requires few { length route.now ≤ 64 }
    requires short { room ≤ 1040 }
    ensures { IfOk result (λ v. v.items ≡ head_of route.now kind []) }
{
    let mut bytes = Vec::with_capacity(alloc, route.len() + room + 2)?;
    push_turns(&mut bytes, route)?;
    bytes.extend_from_slice(&type_bytes(kind))?;
    Ok(bytes)
}

/// The packet of a head, with the CRC that is due to it.
pub fn seal(head: Vec<u8>) -> Result<Packet, AllocError>
    requires { length head.items ≤ 1106 }
    ensures { IfOk result (λ p. p ≡ with_crc head.items) }
{
    Ok(Packet::of_head(head))
}

/// The bytes of a kind's type.
pub fn type_bytes(kind: Kind) -> [u8; 2]
    ensures { result ≡ 0 ∷ type_of kind ∷ [] }
{
    type_number(kind).to_be_bytes()
}

// The type number of a kind.
fn type_number(kind: Kind) -> u16
    ensures { result ≡ type_of kind }
{
    match kind {
        Kind::Mapping => 0x0005,
        Kind::Gm => 0x0008,
    }
}
