//! What holds of the tokens of ports, after every list of acts: events, plans of faults, adoptions of routes.
//!
//! It holds no token, and says nothing of what is in a buffer: that is `message_laws`. Read `specs/Owned.antt`.
//!
//! | file of `specs/` | says |
//! |---|---|
//! | `Owned` | each token of an open port has one owner |
//! | `Examples` | a port whose tokens are on their way, and ports that aren't there |
#![tactic(auto)]

mod owner;
mod worked;

pub use owner::tokens_have_one_owner;
pub use worked::{no_such_port, tokens_of_a_busy_port};
