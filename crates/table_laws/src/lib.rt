//! What holds of the tables of hosts, after every list of acts that may happen.
//!
//! It keeps no table, and says nothing of messages. `specs/Acts.antt` of `world_defs` says which acts may happen; here
//! read `specs/Acts.antt` first.
//!
//! | file of `specs/` | says |
//! |---|---|
//! | `Set` | what belongs to the adopted set: parts, active tables, a host's table |
//! | `Packets` | what an honest packet is: its mark is true, and without a mark it is as it was built |
//! | `Bodies` | what a packet's body and a host have of the set |
//! | `Laws` | the laws of one part, read and taken |
//! | `Provenance` | which host built each packet, and of what |
//! | `Acts` | the laws of every reached world |
//! | `Examples` | a reached world with an active table |
#![tactic(auto)]

mod packet;
mod part;
mod table;
mod worked;

pub use packet::packets_of_hosts;
pub use part::{parts_as_read, tables_of_parts};
pub use table::{channels_without_cycle, tables_of_set, wide_patterns};
pub use worked::one_adoption;
