//! What the lines of a report tell of ports, line by line: the accepted messages that wait to be received, and the
//! tokens that each client holds.
//!
//! It reads no line and knows no world: whoever reads a report tells it what a line says, and it answers whether that
//! can be, by the lines before. `specs/Told.antt` says what was told; `specs/Waiting.antt` and `specs/Held.antt` what
//! is kept.
//!
//! | module | has |
//! |---|---|
//! | `lane` | where messages go, what is kept of one, and where tokens are |
//! | `messages` | for each lane, the accepted messages that weren't received |
//! | `tokens` | for each port, the tokens that its client holds |
#![tactic(auto)]

mod bytes;
mod examples;
mod held;
mod lane;
mod messages;
mod port;
mod queue;
mod tokens;

pub use examples::one_message_of_two;
pub use lane::{Lane, PortName, SentMessage, ToldPlace};
pub use messages::MessageLedger;
pub use tokens::TokenLedger;
