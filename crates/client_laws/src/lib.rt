//! What the clients of ports saw, as the effects of their calls show it: the messages that polls handed out are the
//! first of those that sends were accepted with, and a send token comes back with the message that was last sent with
//! it.
//!
//! It says nothing of how a connection keeps its lists in order, which is `message_laws`, nor of when all that was sent
//! comes, which is `delivery_laws`. That a token is with one owner is `owner_laws`. Read `specs/Seen.antt` first.
//!
//! | file of `specs/` | says |
//! |---|---|
//! | `Handed` | what acts hand to clients, and what they accept, by their effects |
//! | `Seen` | what was polled and what waits is what was got; what was accepted is what was sent; so the first is a front of the second |
//! | `Noted` | the note that a send makes of its token, and that a sent event is of its token's note |
//! | `SeenExamples`, `Examples` | a message that waits, and is polled; a token that is noted, and comes back |
//!
//! The messages from one host, of one priority, to one port:
//!
//! ```text
//!   accepted   m0 m1 m2 m3 m4 m5        what sends were answered by a token
//!   got        m0 m1 m2 m3              what the connection took whole
//!              '-----'-----'
//!              polled  wait             what polls handed out, and what stands in the port's queue
//! ```
//!
//! ```text
//!   send  --> the token's note: lane, place, message        a later send with the token writes it anew
//!               |
//!   ticket --> queue --> sent event --> poll                 nothing on this way is of another token
//! ```
#![tactic(auto)]

mod seen;
mod seen_worked;
mod token;
mod worked;

pub use seen::seen_messages;
pub use seen_worked::one_poll;
pub use token::returned_tokens;
pub use worked::one_token;
