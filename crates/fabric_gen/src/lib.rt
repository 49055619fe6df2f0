//! The text of a generated run: a fabric of any number of hosts from 2 to 24, and a script that has each host send
//! four messages.
//!
//! It prints the text, and reads and runs nothing. `specs/Text.antt` says what the text is.
//!
//! ```text
//!    h0      h1      h2
//!    |       |       |          port 2 of a switch has its host,
//!    s0 ---- s1 ---- s2         ports 0 and 1 the next switch and the one before
//! ```
//!
//! | module | has |
//! |---|---|
//! | `fabric` | the lines of the fabric |
//! | `mapping` | the lines that map the fabric and install its routes |
//! | `clients` | the lines that open ports and send messages |
//! | `message` | the numbers of a message |
//! | `closing` | planned faults, the settle, and what is polled |
//! | `names` | the names of hosts and switches |
#![tactic(auto)]

mod clients;
mod closing;
mod examples;
mod fabric;
mod laws;
mod mapping;
mod message;
mod names;
mod run;

pub use examples::text_of_two_hosts;
pub use laws::{messages_go_on, messages_have_room};
pub use run::gen_text;
