//! What drives a world without a mapper: drains, clears and settles.
//!
//! It keeps nothing of its own: all that it does are events of the world. An event that runs out of memory changes
//! nothing; a drain, a clear, a settle and the give-ups of all hosts leave a world that a prefix of their own events
//! leads to. A drain can be watched: `specs/Watch.antt` says what is looked for. What the other calls come to are the
//! definitions of `world_defs`: read its `specs/Drain.antt` and `specs/Settle.antt`.
//!
//! ```text
//!   drain    passes over full channels, up to one that changes nothing
//!   clear    a drain --> resets of what is stuck then
//!   pass     every host gives up --> every host injects --> clear --> each in limbo: replay, clear
//!   round    expiries of what isn't acknowledged --> passes, up to one that is quiet or moves nothing
//!   settle   clear --> rounds, up to one that leaves nothing unacknowledged or that helps nothing
//! ```
//!
//! | module | has |
//! |---|---|
//! | `seen` | what a mapper looks for in what happens |
//! | `draining` | a drain |
//! | `advancing` | its passes over channels; of many packets, those that wait for another channel are passed by |
//! | `awake` | the channels that may go on |
//! | `happening` | one event, and what is reported of it |
//! | `giving_up` | every host gives up what it staged |
//! | `clearing` | a clear |
//! | `replaying`, `passes` | replays of what is in limbo, a pass over hosts and limbo, passes in a row |
//! | `rounds` | a settle |
#![tactic(auto)]

mod advancing;
mod awake;
mod clearing;
mod draining;
mod giving_up;
mod happening;
mod passes;
mod replaying;
mod rounds;
mod seen;

pub use clearing::clear;
pub use draining::{drain, drain_watching};
pub use giving_up::give_up_all;
pub use happening::{happen, inject};
pub use rounds::{Settled, settle};
pub use seen::{AwaitedPart, Seen, Watch};
