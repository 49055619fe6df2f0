//! The laws of the map: how far a mapper has to probe, and that the map of a closed journal whose answers are true is
//! the fabric, so that its routes lead there.
//!
//! This crate holds laws alone, over the definitions of fabric, journal and map. It asks nothing, and makes no map.
//!
//! | file of `specs/` | says |
//! |---|---|
//! | `Laws` | the laws of a journal's growth over a fabric's true answers |
//! | `Distances` | the laws of the distances D and Q |
//! | `Certificate` | what the map of a journal is, and when it is right |
//! | `Leading` | where routes of a right map lead in the fabric, and over which channels |
//! | `RouteSets` | what a right map's whole set of routes is worth in the fabric |
//!
//! ```text
//!   the fabric                             its map from host a
//!   +---+      +-0-1-2-3-4-5-6-7-+         +---+      +-----------+
//!   | a |------|-----2     5-----|--- b    | a |------|--0     3--|--- b
//!   +---+      +-----------------+         +---+      +-----------+
//! ```
//!
//! The mapper enters the switch by port 2 and calls it port 0: port p of the map is port p + 2 of the fabric. The
//! route `+3` is the same.
//!
//! ```text
//!            +---+           Q = 1, D = 1. At depth 2 the walks +1 and +2 find a switch each, and nothing tells that
//! host a --- 0 s 1 --+       these are s itself: the journal is also that of three switches. At depth 3 the walk
//!            +-2-+   |       +1 -2 finds host a, and one host is one host: both are s.
//!              |     |
//!              +-----+
//! ```
//!
//! That a grown journal is one: `OneJournal` of `proofs/`. That there is one: `Few` (asks are few), `Looking`,
//! `Leading`, `Classes` (replicates can be decided), `Next`, `Existence`. The proof of the depth that suffices, in the
//! order of its files: `Keeping`, `Asks` (what a journal keeps, what an ask is), `Phases` (an expanded class has an
//! expanded member no longer than a given one), `Crossing` (over each cable there is a node), `Full` (one class over
//! each vertex within bounds), `Closing` (so all classes are expanded), `Near` and `Ends` (the node limit), `Depth`.
#![tactic(auto)]

mod distance_laws;
mod examples;
mod growth;
mod growth_examples;
mod laws;

pub use distance_laws::{farthest_is_reached, host_distance_is_reached};
pub use examples::{
    certificate_over_one_cable, certificate_over_two_hosts, maps_that_lack_a_host,
    route_over_two_hosts,
};
pub use growth::{
    asks_are_few, bound_is_tight, depth_suffices, grown_journal_exists, grown_journal_is_one,
    growth_goes_on_or_ends,
};
pub use growth_examples::{
    depth_of_a_loop, depth_of_one_cable, depth_of_the_ring, depth_of_two_hosts, depths_that_suffice,
};
pub use laws::{
    channels_are_those_of_the_fabric, closed_map_is_right, journal_has_one_map,
    right_maps_are_alike, routes_lead_in_the_fabric, routes_of_a_right_map_are_right,
};
