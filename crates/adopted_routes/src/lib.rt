//! What a world keeps of the routes that were adopted in it: at most one set, with its adopter and its epoch.
//!
//! It sends nothing and knows no host: it makes the adopter's table, and the parts of the others with the routes that
//! they travel by. `specs/Adopting.antt` says which routes may be adopted, and when they are refused.
//!
//! ```text
//!   routes --> adopt --> the adopter's table          the same routes keep their epoch; others begin the next, once
//!                                                     each host gave up the one that stands, and else are handed back
//!              part  --> a part of another host's table, and the adopter's route to that host
//! ```
//!
//! | module | has |
//! |---|---|
//! | `routes` | what is adopted, if anything is |
//! | `adopted` | a set of routes with its adopter and its epoch |
//! | `same` | whether two sets are the same |
//! | `laws` | what holds of routes that may be adopted |
#![tactic(auto)]

mod adopted;
mod laws;
mod routes;
mod same;

pub use laws::{adoptable_routes_are_of_hosts, refused_routes};
pub use port_graph::RouteSet;
pub use route_install::{RoutePart, Table};
pub use routes::{AdoptRefusal, AdoptedRoutes, PartToSend};
pub use world_defs::Standing;
