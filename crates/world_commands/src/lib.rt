//! The commands that a world alone is needed for: at most one event each, and the text of what came of it.
//!
//! It drives nothing: a map, an installation and a settle are many events, and stand above; of an installation it has
//! the text alone. `specs/Done.antt` says what it is for a command to be done over a world; `specs/Outcome.antt` of
//! `run_defs` says what each command prints and leaves. An event may pull cables: a line after it has the names of
//! before, since hosts and switches stay.
//!
//! ```text
//!   walk                     a packet, alone in links of its own --> where it ends
//!   plan, finish             their one line
//!   open, close, poll,       one event of a client --> what it was answered
//!     provide, send
//!   tokens                   no event: where each token of a port is; or tokens refused notopen
//!   step                     one event --> what it did; no event where the port that it names has no cable
//!   pull, plug, revoke       events of cables, and of all hosts --> whether they were possible, and how many
//!   broken                   no event: each adopted route that a pull broke; or broken refused noroutes
//! ```
//!
//! | module | has |
//! |---|---|
//! | `requests` | a message to be sent |
//! | `out_of_memory` | where memory ran out in a command: while it was done, or in the text of its line alone |
//! | `clients` | the calls of clients, by their events |
//! | `answers` | one event of a client, and what it was answered |
//! | `places` | where each token of a port is |
//! | `stepping` | a single event, in a report's words |
//! | `remapping` | a cable pulled or plugged, the revocations of all hosts, and the routes that a pull broke |
//! | `telling` | a walk, a plan, and the end |
//! | `doing` | every command of these but a walk |
//! | `duo_events` | one event of the two hosts that restart, which are apart from the world |
//! | `tables` | what an installation prints |
#![tactic(auto)]

mod answers;
mod clients;
mod doing;
mod duo_events;
mod out_of_memory;
mod places;
mod remapping;
mod requests;
mod stepping;
mod tables;
mod telling;

pub use clients::{close, open, poll, provide, send};
pub use doing::do_one;
pub use duo_events::{duo, end_duo};
pub use fab_world::PortAt;
pub use out_of_memory::{OutOfMemory, one_line};
pub use places::tokens;
pub use remapping::{broken, plug, pull, revoke};
pub use requests::SendRequest;
pub use stepping::step;
pub use tables::print_tables;
pub use telling::{finish, plan, walk};
