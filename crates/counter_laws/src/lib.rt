//! Packets are conserved: those that were injected or copied are those in channels and in limbo, and those that were
//! heard, dropped, lost, reset or taken with their cable; and a world's counters are the numbers of its events.
//!
//! It says nothing of which packet is where, nor of what a packet carries: what channels hold is `table_laws`, what an
//! event does to the counts is `world_laws`. Read `specs/Conserved.antt` first.
//!
//! | file of `specs/` | says |
//! |---|---|
//! | `Counts` | the effects of acts, the planned faults that struck, and how many there are of each kind |
//! | `Conserved` | that packets are conserved and counters true after every list of acts |
//! | `Examples` | six packets and two copies, one end of each kind |
//!
//! ```text
//!   injected -.                    .--> heard, dropped, lost, reset, taken
//!              >-- in channels ---<
//!   copied ---'     in limbo       '--> still there
//! ```
#![tactic(auto)]

mod laws;
mod worked;

pub use laws::{conserved_packets, true_counters};
pub use worked::six_probes;
