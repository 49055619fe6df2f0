//! What a mapper's journal is: the walks that a host asked with their answers, which of its nodes are one vertex, how
//! it grows, and how deep it has to.
//!
//! This crate holds definitions and laws, and the type of an entry. It asks nothing and keeps no journal in memory.
//! The laws stand in `DistanceLaws`, `Laws` and `WalkLaws` of `specs/`, and `laws.rt` shows that they hold.
//!
//! | file of `specs/` | says |
//! |---|---|
//! | `Walks` | the order of walks |
//! | `Tree` | nodes, and which port leads to which |
//! | `Replicates` | the nodes that are surely one vertex |
//! | `Truth` | when a journal is true of a fabric, and where its nodes stand there |
//! | `Growth` | the next ask, a grown journal, a closed one |
//! | `Edges`, `Part` | distances; the mapper's part, and how far it reaches |
//! | `Depth` | the depth that suffices, and where the journal keeps the node limit |
//!
//! ```text
//!            port 1 +-----------------+ port 3
//! host a --- 0   s  |                 |  t   4 --- host b
//!            port 2 +-----------------+ port 6
//! ```
//!
//! From host a the walks `+1` and `+2` find a switch, `+1 +1` and `+2 -2` find host b. Host b is one host, so the two
//! switches behind it are one: port p of `+1` is port p - 3 of `+2`.
#![tactic(auto)]

mod entry;
mod examples;
mod laws;

pub use entry::Entry;
pub use examples::{
    depths_of_the_fabrics, growth_over_one_cable, growth_over_two_hosts, order_of_walks,
    replicates_over_parallel_cables, tree_of_the_parallel_cables,
};
pub use laws::{
    distances_are_of_paths, far_ends_go_both_ways, growth_is_determined, replicates_are_one_vertex,
    walks_are_counted, walks_are_ordered,
};
