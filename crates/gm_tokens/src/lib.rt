//! Tokens: the right to send from a port, or to have it receive into a buffer.
//!
//! A bank mints the tokens of one opening of a port, numbered from 0, and takes all of them back. A token can't be
//! cloned and can't be let go: it moves from the client to the port and back, and ends with its bank in
//! [`Bank::retire`]. This crate holds no port. `specs/Minted.antt` says what a bank's tokens are. Sizes of buffers,
//! and the limit of a message, are those of `gm_defs`, in its `specs/Token.antt` and `specs/Body.antt`.
//!
//! ```text
//!           mint             send, provide           take
//!   Bank ---------> client -----------------> port --------> event
//!     ^               |  ^                                     |
//!     +---------------+  +-------------------------------------+
//!          retire                        poll
//! ```
#![tactic(auto)]

mod bank;
mod laws;
mod size;
mod token;

pub use bank::{Bank, Minted, NoMemory};
pub use laws::minted_are_all;
pub use size::{MESSAGE_LIMIT, fits, is_too_long, size_for_length};
pub use token::{RecvToken, SendToken};
