//! What holds of every mapping over the world of a fabric, and of the maps that every run prints.
//!
//! It makes no map, and says nothing of how a command prints one. Read `specs/Laws.antt` first, and then
//! `specs/Runs.antt`.
//!
//! | file of `specs/` | says |
//! |---|---|
//! | `Laws` | what a mapping found was there; complete maps are right, deep ones complete, doubtful ones have a cause |
//! | `Asked` | wherever a map can be made, a journal of asks that has grown to its depth exists, and so a mapping |
//! | `Runs` | a run keeps a world that began with its fabric, and each map that it prints as complete was right |
//! | `Circuits` | a circuit map that a run prints was right, where deep enough the core; there always is one |
//! | `Maps` | a journal whose found answers are true has a least node for each class of nodes, and a map |
//! | `Trees` | the asking of a tree ends, and a whole tree has a circuit map |
//! | `Routes` | a connected map has the least legal route between each two hosts |
//! | `Held` | a map that a run holds as complete was right and connected; routes held or adopted were right |
#![tactic(auto)]

mod existence;
mod mapping;
mod running;

pub use existence::{connected_map_has_routes, journal_has_a_map, tree_has_a_circuit_map};
pub use mapping::{deep_maps, doubtful_maps, kept_by_mappings, made_maps, mappings_exist};
pub use running::{circuit_maps_of_runs, held_by_runs, kept_by_runs, maps_of_runs};
