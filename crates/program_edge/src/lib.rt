//! The edge of a program: its words, a sink that keeps what comes, and how the program ends.
//!
//! What the program does is a [`TopCall`], which `myrifab` makes of `fabric_run::run`. [`run_kept`] calls it over a
//! source and a sink that keeps, writes what was kept, and answers the exit status; `specs/Edge.antt` says how.
//!
//! | module | has |
//! |---|---|
//! | `kept` | a sink that keeps what comes, and hands it on in pieces |
//! | `edge` | the words, the call and the exit status |
#![tactic(auto)]

mod edge;
mod kept;

pub use edge::{TopCall, run_kept, start_status, words_of};
pub use kept::KeptSink;
