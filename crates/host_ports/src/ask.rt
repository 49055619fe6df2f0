//! What the ports of a host refuse.

/// Why a port is not opened.
#[derive(Clone, Copy, Debug, PartialEq, Eq)]
pub enum NodeBegin {
    /// It is open.
    Already,
    /// There is no memory for it.
    NoMemory,
}

/// Why a send is refused.
#[derive(Clone, Copy, Debug, PartialEq, Eq)]
pub enum PortSend {
    /// The port isn't open.
    NotOpen,
    /// No message may be so long.
    TooLong,
    /// The buffer is shorter than the message.
    BufferShort,
}

/// Why a buffer is not provided.
#[derive(Clone, Copy, Debug, PartialEq, Eq)]
pub enum NodeProvide {
    /// The port isn't open.
    NotOpen,
    /// The size is not from 4 to 16, or the priority is above 1.
    BadSize,
    /// The buffer is shorter than its size.
    BufferShort,
}

/// Why a port is not closed.
#[derive(Clone, Copy, Debug, PartialEq, Eq)]
pub enum NodeClose {
    /// It isn't open.
    NotOpen,
    /// So many sends aren't finished.
    Busy(usize),
    /// So many events wait.
    Unread(usize),
    /// So many provided tokens hold the beginning of a message.
    Filling(u32),
}

/// The port isn't open.
#[derive(Clone, Copy, Debug, PartialEq, Eq)]
pub struct NotOpen;
