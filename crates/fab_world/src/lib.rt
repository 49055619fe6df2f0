//! The world: the links of a fabric, its hosts with their clients, the plan of faults and the counts, and one event
//! of it.
//!
//! [`World::step`] answers exactly the effect and leaves exactly the world of the definition `step` of `world_defs`.
//! So each law of worlds after every list of events is a law of this one. `specs/Events.antt` says which events may
//! be given. Cables come and go, and the fabric with them: what a World keeps and hands out is the one that stands.
//! Routes are adopted by epochs: others only once each host gave up the epoch that stands. `specs/Adopting.antt` of
//! `adopted_routes` says which may be.
//!
//! ```text
//!             World                      hosts and links, each at its own
//!   event --> step --+--> links, plan    a packet moves, a fault strikes
//!                    +--> hosts          a host stages, sends and hears; a client makes a call at its port
//!   routes --> adopt ----> the adopter's table; parts of the others are staged at the adopter
//!   effect <---------+
//! ```
//!
//! | module | has |
//! |---|---|
//! | `changing` | each event, and the fabric that follows it |
//! | `clients` | the calls of clients: their events, and what they are answered |
//! | `eight_bits` | the pattern of a flip is a byte |
//! | `host_marks` | which hosts are looked at |
//! | `hosts` | whether a host has nothing to do |
//! | `machine` | links, hosts and adopted routes, and what each event does to them |
//! | `unacknowledged` | how many fragments aren't acknowledged |
//! | `world` | the world: what it keeps, and every event |
#![tactic(auto)]

mod changing;
mod clients;
mod eight_bits;
mod host_marks;
mod hosts;
mod machine;
mod unacknowledged;
mod world;

pub use adopted_routes::AdoptRefusal;
pub use client_host::{Message, Packet, Said, TokenPlace};
pub use clients::PortAt;
pub use faulty_links::{Hop, Run};
pub use machine::Probed;
pub use port_graph::{Fabric, RouteSet};
pub use world::World;
pub use world_defs::{Cause, ClientCause, Effect, Event, Fault, Heard};
