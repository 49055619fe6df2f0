//! Cables and epochs of a running world, by one call each: a cable is pulled or plugged, every host gives up the epoch
//! of the adopted routes, and the routes that a pull broke are named.
//!
//! It adopts no routes and computes none: that is what its callers do once every host has given up. All that it does
//! are events of [`fab_world::World::step`]; `specs/Remap.antt` says what each call answers.
//!
//! ```text
//!   pull, plug --> one event of a cable
//!   revoke ------> one event for each host, by rising address
//!   broken ------> no event: each adopted route is walked over what is left of the fabric since the adoption
//! ```
//!
//! | module | has |
//! |---|---|
//! | `cables` | a cable is pulled or plugged |
//! | `epochs` | every host gives up the epoch |
//! | `broken_routes` | the adopted routes that a pull broke |
//! | `events` | events that take no memory |
//! | `pairs` | pairs of hosts |
#![tactic(auto)]

mod broken_routes;
mod cables;
mod epochs;
mod events;
mod pairs;

pub use broken_routes::broken;
pub use cables::{PlugRefusal, plug, pull};
pub use epochs::revoke;
pub use pairs::PairList;
