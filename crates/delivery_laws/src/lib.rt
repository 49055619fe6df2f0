//! When a settle delivers all that was sent: where each port has as many provided tokens of each size and priority as
//! there are messages for it that such a token fits and that aren't got.
//!
//! What a settle ends with where tokens are missing is `settle_laws`. Read `specs/Delivery.antt` first.
//!
//! | file of `specs/` | says |
//! |---|---|
//! | `Delivery` | what is wanted and what is provided, and that a settle delivers where that is enough |
//! | `Examples` | tokens counted where a settle delivers, and where it can't |
//!
//! Why no message waits for a token then, of one port, size and priority:
//!
//! ```text
//!   wanted    one for each message that isn't got             an event of a settle takes one away only where it
//!   provided  the free tokens, and those that are filling     takes one away from the line above too
//!
//!   a message waits: no token is free, so each is filling for another host's next message,
//!   and that message is wanted too: wanted is provided and one more
//! ```
#![tactic(auto)]

mod delivery;
mod worked;

pub use delivery::settled_delivery;
pub use worked::{counted_tokens, enough_tokens};
