//! The wiring of a fabric in flat tables: its cables as they come and go, the end that each channel enters, and the
//! channel that leaves by each port.
//!
//! It holds no packet: what the channels hold is in `link_model`. `specs/History.antt` of `world_defs` says what
//! a change is, `specs/Tables.antt` what the tables hold, and `specs/Hops.antt` how one of them leads from channel to
//! channel by a byte.
//!
//! | module | has |
//! |---|---|
//! | `changes` | cables pulled, plugged and accepted |
//! | `hops` | the channel that is entered by a turn |
//! | `tables` | the other tables: building them, reading them, putting a channel at a port |
//! | `wiring` | the wiring, and reading it |
#![tactic(auto)]

mod changes;
mod hops;
mod tables;
mod wiring;

pub use wiring::{Entry, Wiring};
