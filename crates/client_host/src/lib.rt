//! One host with the clients of its ports; and all hosts of a world by address, made and spent.
//!
//! It moves no packet, and no host knows another. Here a client makes its calls: it takes its tokens and its buffers,
//! hands them to the host's port, and takes them back. `specs/Client.antt` of `world_defs` says what each call does,
//! `specs/Calls.antt` which event it is; `specs/Held.antt` says what a contract sees, and `specs/Tied.antt` what ties a
//! port to its client: each token has one owner. `specs/Hosts.antt` says the same of hosts by address.
//!
//! ```text
//!             open: mint     provide, send: token and buffer
//!   Client <----------+     +-------------------------------> port of the host
//!      ^              |     |                                       |
//!      +-- tokens held longest first <------------------------------+
//!                              poll, close: token and buffer
//! ```
#![tactic(auto)]

mod calls;
mod closing;
mod ending;
mod events;
mod host;
mod hosts;
mod opening;
mod polling;
mod providing;
mod sending;
mod telling;

pub use events::caller;
pub use gm_defs::TokenPlace;
pub use host::ClientHost;
pub use hosts::{end_hosts, new_hosts};
pub use nic_node::{Arrival, Heard, Message, NextSend, Packet, RoutePart, Table};
pub use world_defs::Said;
