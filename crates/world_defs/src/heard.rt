//! What a host heard.

/// What a packet that reached its host said, or what became of its message.
#[derive(Clone, Copy, Debug, PartialEq, Eq)]
pub enum Heard {
    /// A host probe; its reply is staged.
    Probe,
    /// A host's reply to the probe of this number.
    Reply {
        /// The number of the probe that it answers.
        number: u64,
        /// The address of the host that answered.
        host: u16,
    },
    /// The loopback probe of this number, back at its mapper.
    Loop {
        /// The number of the probe's injection.
        number: u64,
    },
    /// A part of this host's table.
    Routes,
    /// The acknowledgement of a part.
    RoutesAck {
        /// Which set of routes the part is of.
        epoch: u32,
        /// The address of the host whose table it is of.
        host: u16,
        /// The number of the part, from 0.
        part: u8,
    },
    /// A frame whose message was taken whole.
    Message,
    /// A frame whose fragment was taken, and its message isn't whole.
    Fragment,
    /// A frame whose number isn't the next.
    NotNext,
    /// A frame for which no provided token fits.
    NoToken,
    /// An acknowledgement of frames.
    Ack,
}
