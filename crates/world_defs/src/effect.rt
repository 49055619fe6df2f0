//! What an event did.

use crate::client::ClientCause;
use crate::heard::Heard;
use gm_defs::Blob;

/// Why a switch or a host dropped a packet.
#[derive(Clone, Copy, Debug, PartialEq, Eq)]
pub enum Cause {
    /// The turn leads to a port that the switch lacks.
    OutOfRange,
    /// The head is empty at a switch, or begins with no route byte.
    NotRoute,
    /// The port has no cable.
    NoCable,
    /// The cable is new, and the packet isn't of mapping.
    NewCable,
    /// The CRC isn't the one due to the head.
    BadCrc,
    /// The packet reached a host with a route left.
    RouteLeft,
    /// The type is neither of mapping nor of GM.
    UnknownType,
    /// The head is too short, or the body is out of form.
    Malformed,
    /// The body names another destination, or an address that is no host.
    NotMine,
}

/// What a client's call was answered.
#[derive(Debug, Drop)]
pub enum Said {
    /// The port was opened, the epoch given up, or the cable taken out or put in.
    Done,
    /// The port is closed, and so many provided tokens came back.
    Count(u32),
    /// The call took the token of this number.
    Token(u16),
    /// The message of this token was acknowledged; token and buffer came back.
    Sent(u16),
    /// A message came, into the buffer of this token.
    Received {
        /// The number of the receive token.
        token: u16,
        /// The address of the sending host.
        from: u16,
        /// The sending port, from 0 to 7.
        sport: u8,
        /// The priority, 0 or 1.
        prio: u8,
        /// The bytes of the message.
        body: Blob,
    },
    /// The port's queue is empty.
    Nothing,
    /// The call was refused, and changed nothing.
    Refused(ClientCause),
}

/// What an event did.
#[derive(Debug, Drop)]
pub enum Effect {
    /// It wasn't possible, and changed nothing.
    Idle,
    /// The injection of this number, from 1.
    Injected(u64),
    /// The packet is in this channel now.
    Moved(u16),
    /// The packet stays, since this channel holds another.
    Blocked(u16),
    /// The packet reached this host, which heard this.
    Arrived(u16, Heard),
    /// A switch or a host dropped the packet.
    Dropped(Cause),
    /// The channel's packet is gone.
    Lost,
    /// The channel was cleared.
    Reset,
    /// Bits of the channel's packet were flipped.
    Flipped,
    /// What the peer didn't acknowledge is due again.
    Expired,
    /// The host dropped what it had staged for the mapper.
    GaveUp,
    /// A copy is in limbo, under this serial.
    Repeated(u64),
    /// The packet is in limbo, under this serial.
    Held(u64),
    /// The packet is back in this channel.
    Replayed(u16),
    /// A probe or a part is staged.
    Staged,
    /// A client's call, one to give up an epoch, or a change of cables was answered so.
    Said(Said),
}
