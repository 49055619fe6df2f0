//! The frame that is flipped and cut.

use myri_packet::{Kind, Packet, encode};
use std::alloc::{AllocError, Global};

/// The body of the message `ABC` from port 0 of host 0 to port 1 of host 1, the first of its connection and whole.
pub(crate) const BODY: [u8; 26] = [
    0x01, 0x02, 0x00, 0x00, 0x00, 0x01, 0x00, 0x01, 0x00, 0x00, 0x00, 0x00, 0x00, 0x00, 0x00, 0x00,
    0x03, 0x00, 0x00, 0x00, 0x00, 0x00, 0x03, 0x41, 0x42, 0x43,
];

/// The packet of 30 bytes that carries the body by the turn +3.
pub(crate) fn frame(alloc: Global) -> Result<Packet, AllocError> {
    encode(alloc, &[3], Kind::Gm, &BODY)
}
