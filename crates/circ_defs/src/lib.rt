//! The circuit profile: what a mapper is told where a packet holds each cable that it has crossed, and how far it has
//! to probe there.
//!
//! This crate holds definitions alone. It asks nothing and makes no map.
//!
//! | file of `specs/` | says |
//! |---|---|
//! | `Circuit` | circuit places and answers, and the whole tree of them to a depth |
//! | `Asking` | in which order the tree is asked, and where that ends |
//! | `Ways` | ways over numbered cables, and paths that are taken one by one |
//! | `PathList` | paths with return walks |
//! | `Cores` | what is cut off, the core, and its path lists |
//! | `CircuitMap` | the map of the whole tree, without what is outside |
//!
//! ```text
//!            +---+           The walk +1 goes round the loop and finds the switch again. The walk +1 -2 leads home over
//! host a --- 0 s 1 --+       the host's own cable, once in each direction, and is told host a: so both are one switch.
//!            +-2-+   |       The walk +1 -1 would cross the loop a second time and meet itself there: it is told nothing.
//!              |     |
//!              +-----+
//! ```
#![tactic(auto)]

mod examples;

pub use examples::{
    circuit_places_of_the_self_cabled_switch, circuit_places_of_two_hosts, paths_of_a_loop,
    paths_of_two_hosts, tree_of_one_cable,
};
