//! The client of a host's port: the tokens that it holds, which of them it uses next, and how those that a port hands
//! back come to it; and a port with its client.
//!
//! It moves no packet and knows no message. A client uses the token that it has held longest, takes one that comes
//! back after the others, and one of a refused call in front of them, so that such a call leaves the order as it
//! was. `specs/Held.antt` says what a contract sees of it, over the client of `world_defs`, `specs/Back.antt` what
//! comes back, and `specs/Serving.antt` what ties a port to its client.
//!
//! ```text
//!                 take                        give back
//!   in use <------------ 3 | 4 | 5 | 0 | 1 <------------- from an event, or from a port that was closed or abandoned
//!          ------------>
//!             return: the call was refused
//! ```
#![tactic(auto)]

mod bytes;
mod client;
mod client_port;
mod returning;

pub use bytes::{client_buffer, client_bytes, zero_buffer, zero_buffer_in};
pub use client::Client;
pub use client_port::ClientPort;
pub use gm_port::{PortEvent, SendAsk, Wreck};
pub use gm_tokens::NoMemory;
pub use returning::{end_wreck, retire, take_back, take_back_recvs};
