//! Two hosts that restart, over a medium that loses, repeats and delays what they send: the code that does what
//! `duo_defs` says, one event at a time.
//!
//! It has no fabric, no route and no clock: whoever calls it says which packet arrives, when a timer runs out and when
//! an end restarts. Read `specs/Step.antt` of `duo_defs` for what an event does, and `specs/Theorem.antt` there for
//! what holds after every list of them.
//!
//! ```text
//!             End 0                        medium                       End 1
//!   client, port, lane, past   --emit-->  p0 p1 p2 ..  --deliver-->   client, port, lane, past
//!                              <-deliver-              <--emit--
//! ```
//!
//! | module | has |
//! |---|---|
//! | `duo` | `Duo`: both ends and the medium, reached by events, with what its clauses promise |
//! | `ends` | the same, one event at a time |
//! | `end` | `End`: one end, made, ended, and read |
//! | `calls` | what the client of an end calls |
//! | `emitting`, `hearing` | what an end emits, and what it makes of a packet |
//! | `restarting`, `giving_back` | how a period ends, and how sends that aren't finished come back |
//! | `period` | what is kept of a period that is over, and of a send that is in an event |
#![tactic(auto)]

mod calls;
mod duo;
mod emitting;
mod end;
mod ends;
mod giving_back;
mod hearing;
mod period;
mod restarting;

pub use duo::Duo;
pub use duo_defs::{DuoCause, DuoEffect, DuoEvent, Packet};
pub use gm_defs::{Blob, Message};
pub use gm_tokens::NoMemory;
