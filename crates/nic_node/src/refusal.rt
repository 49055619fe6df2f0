//! Why a host doesn't accept a message.

/// Why a message isn't accepted. Where several hold, the first is reported.
#[derive(Clone, Copy, Debug, PartialEq, Eq)]
pub enum NodeSend {
    /// The port isn't open.
    NotOpen,
    /// No message may be so long.
    TooLong,
    /// The buffer is shorter than the message.
    BufferShort,
    /// No route leads to the receiver.
    NoRoute,
    /// The message needs a number above 4,294,967,294.
    Spent,
    /// There is no memory for it.
    NoMemory,
}
