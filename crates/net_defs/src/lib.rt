//! What a fabric is: hosts, switches and cables, walks over them, and where a walk ends.
//!
//! This crate holds definitions and the small types that they speak of. It holds no fabric in memory: that is
//! `port_graph`. `specs/Network.antt` says what makes a fabric one, `specs/Building.antt` how it grows,
//! `specs/Route.antt` where a walk leads.
//!
//! ```text
//!   host a            switch s, 8 ports           host b
//!   +---+  cable 0   +-0-1-2-3-4-5-6-7-+  cable 1  +---+
//!   | 0 |------------|-----2     5-----|-----------| 0 |
//!   +---+            +-----------------+           +---+
//! ```
//!
//! From host a the walk `+3` crosses cable 0 into port 2, leaves by port 2 + 3, and ends at host b.
#![tactic(auto)]

mod examples;
mod fault;
mod place;
mod route;
mod turn;
mod turn_list;
mod vertex;
mod walk;

pub use examples::{places_of_the_self_cabled_switch, places_of_two_hosts};
pub use fault::GraphFault;
pub use place::{Answer, Place};
pub use route::Route;
pub use turn::leaving_port;
pub use turn_list::FEW_TURNS;
pub use vertex::{Cable, End, Vertex};
pub use walk::{Walk, WalkFault};
