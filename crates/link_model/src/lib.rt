//! The links of a fabric in memory: channels that hold one packet each, limbo, and the calls that move, lose, copy,
//! delay and flip packets.
//!
//! It reads no packet's payload and knows no script. Each call is a step of the link machine: `specs/Links.antt`,
//! `specs/Advance.antt` and `specs/Fault.antt` of `world_defs` say what it answers and what stays;
//! `specs/FullSlots.antt` says what the index of full channels holds.
//!
//! ```text
//!   channel   0   1   2   3   4   5  ..
//!   holds     .   p   .   .   p   p
//!   marks     0   1   0   0   1   1         a bit each, in words of 64; the next full channel from 2 on is 4
//! ```
//!
//! | module | has |
//! |---|---|
//! | `slots` | what channels hold, a packet each or none, with an index of the full ones; it knows no cable |
//! | `course` | where a channel's packet goes |
//! | `hop` | what a hop came to, a run of hops, and a packet carried to its end |
//! | `limbo` | the packets that a cable keeps back |
//! | `links` | the links: reading them, filling them, an advance, the faults |
//! | `walking` | a packet alone in the links, to the end of its walk |
#![tactic(auto)]

mod course;
mod hop;
mod limbo;
mod links;
mod slots;
mod walking;

pub use hop::{Carried, Hop, Run};
pub use links::{Links, Occupied};
pub(crate) use slots::{Slot, Slots};
pub use walking::walk_alone;
pub use world_defs::{Moved, Replayed, Turned, Why};
