//! Why a client's call is refused.

/// Why a client's call is refused; each call tests its causes in the order in which docs/FORMATS.md names them.
#[derive(Clone, Copy, Debug, PartialEq, Eq)]
pub enum ClientCause {
    /// The port is open already.
    Already,
    /// The port isn't open.
    NotOpen,
    /// The client holds no token of the kind.
    NoToken,
    /// The message is longer than the limit.
    TooLong,
    /// The host has no active table with a route to the destination.
    NoRoute,
    /// The message needs a number above the greatest.
    Spent,
    /// The size isn't one of 4 to 16.
    BadSize,
    /// So many sends aren't finished.
    Busy(u32),
    /// So many events wait.
    Unread(u32),
    /// So many provided tokens hold a part of a message.
    Filling(u32),
}
