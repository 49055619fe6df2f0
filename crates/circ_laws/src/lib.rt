//! The laws of the circuit map: circuit answers tell the truth or nothing, a tree of them that is deep enough shows
//! each vertex of the core as one, and so its map is the core of the mapper's part, up to each switch's offset.
//!
//! This crate holds laws and their proofs. It probes nothing and makes no map, and no law here lets a map certify
//! itself: over circuit links no journal does. The laws stand in `ClassLaws` and `Laws` of `specs/`.
//!
//! ```text
//!   a --- s -.- t --- u       The cable between s and t cuts t and u off: no way leads on from t to a host. What a journal knows of
//!         |     |     |       t may be several vertices of its map, and all are outside there too; s is one vertex, and inside.
//!         b     +-----+
//! ```
//!
//! That vertices of the core are one, in the order of the files in `proofs/`: `Telling` (answers and merges), `Growing`
//! (trees that were asked in order), `Lifts` (ways of the fabric that are ways of the tree), `Sheets`, `Walking` and
//! `Listed` (a return walk that the depth covers stands in the tree), `Tracing` (how a node was reached), `OneClass`.
//!
//! ```text
//!   a --- s === t --- b       A sheet: one node for each vertex, so that the tree leads over each cable of the paths so far between
//!                             replicates of the nodes at its ends. The next path is laid on it, cable by cable, from its start; its
//!                             return walk leads from its end back to a host, over cables that lie on the sheet already: so its
//!                             end does too.
//! ```
//!
//! That the map is the core: `Sides` (what outside means in a map), `Ends` (cables of the map and cables of the
//! fabric), `Outside` (what is cut off is outside), `Inside` (the core is not), `Assembly` (what is inside is the
//! core), `Numbering` (and so is the map that is numbered anew); and `Found` (what a journal found is enough for its
//! map). Whatever the depth, a fabric has one tree (`OneTree`) and one circuit map of it (`OneCircuit`), which keeps
//! the rules of maps (`Ruled`).
#![tactic(auto)]

mod classes;
mod examples;
mod laws;

pub use classes::{
    circuit_answers_tell_true_or_nothing, core_vertices_have_one_class, grown_trees_are_whole,
};
pub use examples::circuit_map_of_two_hosts;
pub use laws::{
    circuit_map_is_the_core, circuit_maps_are_maps, circuit_maps_are_one, found_entries_are_enough,
};
