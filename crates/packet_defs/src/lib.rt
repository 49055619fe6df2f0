//! What a packet is: its bytes on the wire, its CRC, the strip of a route byte, a burst of flipped bits, and what a
//! host makes of it; and turns as bytes, by one table.
//!
//! This crate holds definitions, the small types that they speak of, and the calls that read and write turns. It holds
//! no packet in memory and computes no CRC. `specs/Packet.antt` says what a packet's bytes are, `specs/Crc.antt` its
//! CRC, `specs/Bits.antt` the remainder after it, `specs/RouteByte.antt` the byte of a turn, `specs/Burst.antt` a flip,
//! and `specs/Host.antt` what a host answers.
//!
//! ```text
//!   83 | 00 05 | .. | AD        one turn of +3, the type, a payload, the CRC
//!   -----head------
//!   strip of 83: 00 05 | .. | 1B    1B is AD, exclusive or the contribution of 83
//!
//!   n | 0x80 + (turn mod 64), n times        a route within a body; +3 is 0x83, -1 is 0xBF
//! ```
//!
//! | module | has |
//! |---|---|
//! | `kind`, `host_drop` | the kinds of packets, and why a host drops one |
//! | `table` | the byte of a turn, and the turn of a byte |
//! | `turns` | routes within a body: how many turns, and then a byte for each |
//! | `laws`, `examples` | laws of packets and worked examples |
#![tactic(auto)]

mod examples;
mod host_drop;
mod kind;
mod laws;
mod table;
mod turns;

pub use examples::{checks, drops_at_a_host, flip_of_a_frame, polynomials, wire_bytes};
pub use host_drop::HostDrop;
pub use kind::Kind;
pub use laws::{
    built_packets, crc_of_parts, flips, remainder_of_a_division, strips, turns_of_route_bytes,
};
pub use table::{is_route_byte, route_byte, turn_of};
pub use turns::{TurnFault, push_route, push_turns, walk_of, write_turns};
