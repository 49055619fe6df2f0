//! A packet in memory: building it, the strip of its front byte, a flip, and what a host makes of it.
//!
//! It moves no packet and knows no switch. What a contract sees of a `Packet` is the list of its bytes on the wire;
//! `specs/Packet.antt` of `packet_defs` says what they are, and `specs/Refusals.antt` here which bytes are refused.
//!
//! ```text
//!   83 | 00 05 | .. | AD      before the strip: one route byte, the type, a payload, the CRC
//!        00 05 | .. | 1B      after it: the front byte is read off, and the CRC loses its contribution
//! ```
#![tactic(auto)]

mod building;
mod host;
mod packet;

pub use building::{encode, packet_front, seal, type_bytes};
pub use host::{Body, decode_at_host, has_route};
pub use packet::{FlipRefusal, MAX_BYTES, Packet, WireFault};
pub use packet_defs::{HostDrop, Kind};
