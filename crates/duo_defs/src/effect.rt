//! What an event did.

use gm_defs::Blob;

/// Why a call of a client, or a restart, was refused.
#[derive(Clone, Copy, Debug, PartialEq, Eq)]
pub enum DuoCause {
    /// The client holds no token of that kind.
    NoToken,
    /// The message has more than 1,016 bytes.
    TooLong,
    /// No number is left for the message, or no incarnation for the end.
    Spent,
    /// The size isn't from 4 to 16.
    BadSize,
}

/// What an event did.
#[derive(Debug, Drop)]
pub enum DuoEffect {
    /// The call was accepted, with the token of this number.
    Token(u16),
    /// The call was refused, and nothing changed.
    Refused(DuoCause),
    /// Nothing: there is nothing to emit, nothing unacknowledged, or no packet of that place.
    Idle,
    /// A packet was emitted, and stands at this place of the medium, from 0.
    Emitted(u64),
    /// A hello was heard.
    Hello,
    /// A hello of a lower incarnation than the known one came, or data not from the known one to this one: nothing
    /// changed.
    Stale,
    /// A frame came, and its message was taken.
    Message,
    /// A frame came whose number isn't the next one.
    NotNext,
    /// A frame came whose message fits no provided buffer.
    NoToken,
    /// An acknowledgement was heard.
    Ack,
    /// What isn't acknowledged is due again.
    Expired,
    /// No event waits for the client.
    Nothing,
    /// The message of this send token was acknowledged.
    Sent(u16),
    /// The end heard that its peer restarted before it heard an acknowledgement of this send token's message: the peer
    /// may have got it, or not.
    Unsure(u16),
    /// A message was received.
    Received {
        /// The receive token that it took.
        token: u16,
        /// The message.
        body: Blob,
    },
    /// The end restarted, and has this incarnation now.
    Restarted(u32),
}
