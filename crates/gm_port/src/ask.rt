//! What a client asks of a port, and what a port refuses.

/// Where a message is to go, and how long it is.
#[derive(Clone, Copy, Debug, PartialEq, Eq)]
pub struct SendAsk {
    /// The receiving host.
    pub dest: u16,
    /// The receiving port, below 8.
    pub dport: u8,
    /// 0 or 1.
    pub prio: u8,
    /// The message is the buffer's first `len` bytes.
    pub len: u32,
}

/// Why a send is refused.
#[derive(Clone, Copy, Debug, PartialEq, Eq)]
pub enum SendRefusal {
    /// No message may be so long.
    TooLong,
    /// The buffer is shorter than the message.
    BufferShort,
}

/// Why a buffer is not provided.
#[derive(Clone, Copy, Debug, PartialEq, Eq)]
pub enum ProvideRefusal {
    /// The size is not from 4 to 16, or the priority is above 1.
    BadSize,
    /// The buffer is shorter than its size.
    BufferShort,
}

/// Why a port is not closed.
#[derive(Clone, Copy, Debug, PartialEq, Eq)]
pub enum CloseRefusal {
    /// So many sends aren't finished.
    Busy(usize),
    /// So many events wait.
    Unread(usize),
    /// So many provided tokens hold a part of a message.
    Filling(u32),
}
