//! The core of a map: what no cable between two switches cuts off from all hosts.
//!
//! It removes nothing from the map. `specs/Core.antt` of `map_defs` says what a switch bridge is, and which vertices
//! it cuts off; `specs/Laws.antt` says the same by paths.
//!
//! The core takes one depth-first walk over the cables from the hosts, in steps as many as vertices and cables;
//! `specs/Walking.antt` says what is known of a vertex when the walk is done with it. For the list of switch bridges
//! each cable between two switches is tried: without it, a search from either end, where no host is near.
//!
//! | module | has |
//! |---|---|
//! | `sources` | where the walk begins: hosts, and what is beside them |
//! | `cables_at` | the cables at each vertex |
//! | `walk` | the walk: numbers, and which vertices their entry cable cuts off |
//! | `outside` | what hangs by a cable that cuts it off |
//! | `side` | what is left joined to a vertex without a cable |
//! | `bridges` | what a cable cuts off, switch bridges, core marks |
//! | `laws` | that what is marked is what paths say |
//!
//! ```text
//!   a -- #0 === #1 -- #2      The cable === is a switch bridge: without it #1 and #2 have no host. They are outside.
//!        |       \___/
//!        b
//! ```
#![tactic(auto)]

mod bridges;
mod cables_at;
mod laws;
mod outside;
mod side;
mod sources;
mod walk;

pub use bridges::{mark_core, switch_bridges};
pub use laws::core_is_by_paths;
