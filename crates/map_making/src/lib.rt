//! What the command `map` makes: a map with its core marked, what the map may be called, and how many asks it took; and
//! what the command `circuit` prints: the map of circuit links.
//!
//! It knows of no world: `map` asks a prober, and `circuit` reads a fabric. `specs/Made.antt` says what is made, and
//! `specs/Circuit.antt` what is printed.
//!
//! ```text
//!   how the growth ended       an ask drowned    words
//!   too many nodes                               incomplete nodes
//!   a switch at the depth                        incomplete depth
//!   closed                     yes               doubtful, and how many drowned
//!   closed                     no                complete
//! ```
//!
//! ```text
//!   the whole tree keeps the limit of nodes    circuit a depth 5 asks 31, and the lines of the map
//!   it passes the limit                        circuit a nodes asks 406042
//! ```
//!
//! | module | has |
//! |---|---|
//! | `circuits` | the map of circuit links, with its text |
//! | `making` | the map of one host, with its words |
//! | `lines` | the line of a map, and its lines |
#![tactic(auto)]

mod circuits;
mod lines;
mod making;

pub use circuits::print_circuit;
pub use fabric_map::FabricMap;
pub use lines::print_made;
pub use making::{MadeMap, make_map};
pub use run_defs::MapWords;
