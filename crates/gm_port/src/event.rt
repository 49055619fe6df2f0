//! What a port hands out, and what it holds of a provided token.

use gm_defs::Filling;
use gm_tokens::{RecvToken, SendToken};
use reg_mem::Reg;

/// An event of a port: a message was acknowledged, or one was received.
pub enum PortEvent {
    /// The message of this token is acknowledged; its buffer is as it was handed over.
    Sent(SendToken, Reg),
    /// A message came. The buffer's first `len` bytes are the message, its others are as they were provided.
    Received {
        /// The receive token that it took; it goes back to the client with the event.
        token: RecvToken,
        /// The buffer that was provided with the token.
        buffer: Reg,
        /// The sending host.
        from: u16,
        /// The sending port.
        sport: u8,
        /// The priority of message and token, 0 or 1.
        prio: u8,
        /// The length of the message, in bytes.
        len: u32,
    },
}

/// All that an abandoned port held.
pub struct Wreck {
    /// The sends that weren't finished, by the rising numbers of their tokens.
    pub sending: Vec<(SendToken, Reg)>,
    /// The provided tokens, first provided first. The buffer of one that is filling begins with what it took.
    pub provided: Vec<(RecvToken, Reg)>,
    /// The events that nobody polled, first put in first.
    pub events: Vec<PortEvent>,
}

// A provided token with its buffer, and what it is filling with.
pub(crate) struct ProvidedToken {
    pub(crate) token: RecvToken,
    pub(crate) buffer: Reg,
    pub(crate) size: u8,
    pub(crate) prio: u8,
    pub(crate) filling: Option<Filling>,
}
