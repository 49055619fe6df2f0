//! A port of a host: it holds tokens and buffers from the client's call until an event hands them back.
//!
//! It sends no packet and speaks to no other host: the host's node makes frames of its sends and hands it the
//! messages that come. A token or a buffer is in one place at a time, with the client, in the queue of sends,
//! provided, or in an event; it moves by the calls below. What a contract sees of a port is `specs/Opened.antt`, over
//! the state of a port in `gm_defs`, whose `specs/Port.antt` says what each call makes of it.
//!
//! ```text
//!              send               finish
//!   client ----------> queue  ------------> events ----------> client
//!              provide            deliver              poll
//!   client ----------> provided ----------> events ----------> client
//!                      |      ^
//!                      '------'  deliver, before the last fragment: the token is filling
//! ```
//!
//! | module | has |
//! |---|---|
//! | `ask` | what is asked and refused |
//! | `event` | events, and what an abandoned port hands back |
//! | `sends` | the queue: unfinished sends by token |
//! | `slots` | where a send's token and buffer lie: the slots of a slab |
//! | `buffers` | the provided tokens |
//! | `tally` | how many tokens of a list have each number |
//! | `events` | the queue of events |
//! | `port` | the port |
//! | `laws` | one owner, and bytes that stay, over all ports |
#![tactic(auto)]

mod ask;
mod buffers;
mod event;
mod events;
mod laws;
mod port;
mod sends;
mod slots;
mod tally;

pub use ask::{CloseRefusal, ProvideRefusal, SendAsk, SendRefusal};
pub use event::{PortEvent, Wreck};
pub use gm_defs::TokenPlace;
pub use gm_tokens::NoMemory;
pub use laws::{buffers_keep_their_bytes, tokens_fill_right, tokens_have_one_owner};
pub use port::Port;
