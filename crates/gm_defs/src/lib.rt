//! What the ports' messages are: message, fragment, frame and acknowledgement with their bytes, the numbers of a
//! connection, and the places of a port's tokens.
//!
//! This crate holds definitions and the small types that they speak of. It sends no message.
//!
//! | file of `specs/` | says |
//! |---|---|
//! | `Body` | the bytes of frames and acknowledgements |
//! | `Fragment` | the pieces of a message, honest frames and acknowledgements |
//! | `Connection` | which connection a body belongs to; the four numbers of a sender, the one of a receiver |
//! | `Token` | sizes, and where each token of a port is |
//! | `Port` | what each call makes of a port |
//!
//! ```text
//!   0              base         cursor        top          next
//!   | acknowledged  | on its way  | due again  | never sent  |
//! ```
#![tactic(auto)]

mod blob;
mod counting;
mod examples;
mod frame;
mod laws;
mod message;
mod token;

pub use blob::Blob;
pub use counting::counted_bytes;
pub use examples::{
    bodies_of_frames, connections_of_bodies, message_in_two_fragments, numbers_of_a_connection,
    pieces_of_messages, ports_after_calls, sizes_of_tokens,
};
pub use frame::{Ack, ConnectionKey, FrameHead, GmBody, Malformed, PIECE, piece_count};
pub use laws::{
    bodies_are_read, bodies_were_written, fragments_at_ports, fragments_by_number,
    messages_of_pieces, senders_stay, sizes_are_least,
};
pub use message::Message;
pub use token::{Filling, TokenPlace, Took};
