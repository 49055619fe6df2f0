//! What a host has staged to send besides messages, the packet of the first of it, and what comes of the mapper's
//! protocol and leaves the table as it is.
//!
//! It keeps no connection and no table. `specs/Node.antt` of `world_defs` says what is staged and in which order it is
//! sent, and `specs/Hearing.antt` there what is made of a body; `specs/Held.antt` sets the three items into a host of
//! the world.
//!
//! ```text
//!   staged probe or part  ---+
//!   reply to a probe      ---+---> the first that stands ---> its packet
//!   a part's acknowledgement +
//!
//!   a looped probe of 3, -1:   3 | -1 | 0 | 1 | -3     there, the turn that leads back, and its way back
//! ```
#![tactic(auto)]

mod answers;
mod body;
mod heads;
mod hearing;
mod items;
mod laws;
mod probing;
mod route;
mod staged;

pub use body::{MapperBody, read};
pub use hearing::{hear_ack, is_part_for};
pub use items::Items;
pub use laws::items_are_a_hosts;
pub use myri_packet::Packet;
pub use route_parts::RoutePart;
pub use staged::write_probe;
