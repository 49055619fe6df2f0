//! The links of a fabric with the plan of faults and the counts of a world: all of a world but its hosts, their
//! clients and the adopted routes.
//!
//! It hears no packet, and knows no host's state: a packet that stands before a host is shown, and is taken out as a
//! lost one is once it is told what the host made of it. Each call is exactly its event, in every world that has these
//! links, this plan and these counts: `specs/Held.antt` says what part of a world that is, and `specs/Step.antt` of
//! `world_defs` what the event does.
//!
//! ```text
//!   plan     3: Lose   8: Hold            the fault of injection 3 strikes as soon as packet 3 is in its channel
//!               |
//!   packet 3 ===x=== channel 0 ======>
//! ```
//!
//! | module | has |
//! |---|---|
//! | `plan` | the planned faults by injection |
//! | `key` | the number of an injection, as a fault is found by it |
//! | `counts` | injections, drops, strikes and harms |
//! | `faulty` | the links with both: reading them, faults, injections, an advance |
//! | `reach` | how far packets may still go |
//! | `laws` | a world and its part; injections of hosts |
#![tactic(auto)]

mod counts;
mod faulty;
mod key;
mod laws;
mod plan;
mod reach;

pub use faulty::FaultyLinks;
pub use laws::{injections_of_hosts, parts_of_worlds};
pub use link_model::{Carried, Hop, Run};
pub use world_defs::{Cause, Effect, Fault};
