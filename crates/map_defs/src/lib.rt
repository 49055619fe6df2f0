//! What a map is: the vertices that a mapper found with their cables, the journal that it stands for, when two maps
//! are the same, its core, its routes, and what keeps these free of deadlock.
//!
//! This crate holds definitions and laws, and the types that they speak of. It makes no map and no route.
//!
//! | file of `specs/` | says |
//! |---|---|
//! | `NetMap` | a map, its ports, the rules that every map keeps |
//! | `Quotient` | the map of a journal |
//! | `Sameness` | the same up to offset; a right map |
//! | `Core` | switch bridges, and what they cut off |
//! | `Orientation` | root, levels, order, up and down |
//! | `Routing` | where routes lead, legal ones, the least |
//! | `Ranks` | ranks of channels that rise along routes; the ranks that an order gives |
//!
//! ```text
//!    b -- #1 --- #0 -- a      up is towards #0, then #1, #2, #3.
//!          |      |           From b to d the route -1 +1 +2 goes up to #0 and down to #2.
//!         #3 --- #2           The route -2 -1 +1 goes down to #3 and then up to #2: not legal.
//!          |      |
//!          c      d
//! ```
#![tactic(auto)]

mod examples;
mod laws;
mod rank;
mod vertex;

pub use examples::{
    core_of_the_self_cabled_map, dependencies_of_the_ring, map_of_two_hosts,
    orientation_of_the_ring, routes_of_the_ring,
};
pub use laws::{
    places_are_by_distance, ports_have_one_cable, ranks_certify_least_routes,
    rising_ranks_leave_no_cycle, sameness_is_an_equivalence,
};
pub use rank::RankEntry;
pub use vertex::{MapCable, MapVertex};
