//! A fabric in memory: its hosts, switches and cables, the far end of each port, and the place of a walk; and sets of
//! routes.
//!
//! It moves no packet and reads no text. What a contract sees of a `Fabric` is a `Network` of `net_defs`; there
//! `specs/Network.antt`, `specs/Building.antt` and `specs/Route.antt` say what each call means, and here
//! `specs/Removing.antt`.
//!
//! | module | has |
//! |---|---|
//! | `names` | names in the order of the text, found by their bytes |
//! | `cabling` | cables, with a table of far ends by port |
//! | `fabric` | the fabric: reading it, growing it, taking cables out, walking over it |
//! | `routes` | routes of many pairs of hosts, in their order |
#![tactic(auto)]

mod cabling;
mod examples;
mod fabric;
mod names;
mod routes;

pub use examples::cable_of_two_hosts_removed;
pub use fabric::Fabric;
pub use net_defs::{Cable, End, GraphFault, Place, Route, Vertex, Walk, WalkFault};
pub use routes::{RoutePush, RouteSet};
