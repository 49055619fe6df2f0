//! A part of a host's table, and the acknowledgement of one, as they travel: their bodies written and read.
//!
//! It cuts no set of routes and keeps no table: that is `route_install`. `specs/Mapping.antt` of `world_defs` says
//! what a body is, and `specs/Reading.antt` what bytes say of these two.
//!
//! ```text
//!   part             4 | epoch (4) | mapper (2) | dst (2) | part | parts | n, n route bytes | count | count entries
//!   entry            host (2) | n, n route bytes
//!   acknowledgement  5 | epoch (4) | host (2) | part
//! ```
#![tactic(auto)]

mod ack;
mod entry;
mod fault;
mod fronts;
mod head;
mod part;
mod reading;
mod routes;

pub use ack::{ACK_LENGTH, PartAck};
pub use entry::{EntryList, TableEntry};
pub use fault::BodyFault;
pub use part::RoutePart;
