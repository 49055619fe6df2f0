//! The map over circuit links: the whole tree of circuit answers, asked in the order of walks, and mapped without
//! what is outside.
//!
//! It sends no packet and certifies nothing: what makes such a map the core is its depth. `specs/Mapping.antt` says
//! what is answered; `specs/CircuitMap.antt` and `specs/Asking.antt` of `circ_defs`, what a circuit map is and in
//! which order the tree is asked.
//!
//! ```text
//! found   [] | -3 .. +2 | -3 -1 .. | ..      what was found, in the order of the asks, is the queue of the switches to be expanded:
//!          ^                                 each, if it crosses fewer cables than the depth, is asked with its 30 turns in their order
//! ```
//!
//! | module | has |
//! |---|---|
//! | `prober` | what answers the asks |
//! | `circ_fabric` | a prober over a fabric in memory |
//! | `mapping` | the map of a tree, and its end |
//! | `growth` | the growth of the tree to its depth |
//! | `expanding` | the 30 turns of one switch |
//! | `asking` | one ask |
//! | `tree` | what was found, and how often was asked |
//! | `inside` | a map without what is outside |
//! | `walks` | walks that go on by a turn |
#![tactic(auto)]

mod asking;
mod circ_fabric;
mod expanding;
mod growth;
mod inside;
mod mapping;
mod prober;
mod tree;
mod walks;

pub use circ_ears::{EarList, ears};
pub use circ_fabric::CircFabric;
pub use fabric_map::FabricMap;
pub use mapping::{CircEnd, CircMapped, map_circuit};
pub use prober::CircProber;
