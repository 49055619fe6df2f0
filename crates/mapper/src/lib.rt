//! The mapper: the journal of one host, grown by asks to a depth, and its map.
//!
//! It knows no fabric: it looks at what a prober answers. `specs/Growths.antt` says what a journal grows by,
//! `specs/Asks.antt` how the asks lead a prober from one state to another, and `specs/Maps.antt` what mapping gives.
//!
//! ```text
//! journal   [] | -15 -14 .. +15 | -2 -15 .. -2 +15 | ..      the walks in their order, as they are asked
//!            ^                    ^
//!            expanded first       the next entry that is a switch within the depth, whose class has no expanded member
//! ```
//!
//! | module | has |
//! |---|---|
//! | `mapping` | the map of a journal that has grown, and its end |
//! | `growth` | the growth of a journal to its depth |
//! | `sweep` | one node after another |
//! | `opening` | which node is to be expanded next |
//! | `expanding` | the 30 turns of one node |
//! | `asking` | one ask |
//! | `tree` | a journal that grows, with its classes and the number of its nodes |
//! | `walks` | walks that go on by a turn |
#![tactic(auto)]

mod asking;
mod expanding;
mod growth;
mod mapping;
mod opening;
mod sweep;
mod tree;
mod walks;

pub use growth::{Grown, grow};
pub use map_quotient::FabricMap;
pub use mapping::{MapEnd, Mapped, map, map_within};
pub use walks::{TURNS, empty_walk, turn_at};
