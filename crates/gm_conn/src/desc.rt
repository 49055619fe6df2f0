//! What a sender keeps of a message, and what it says of a fragment that is due.

use gm_defs::FrameHead;

/// A message without its bytes.
#[derive(Clone, Copy, Debug, PartialEq, Eq)]
pub struct Desc {
    /// Where its bytes are: the key of the port's send.
    pub ticket: usize,
    /// The sending port.
    pub sport: u8,
    /// The receiving port.
    pub dport: u8,
    /// The priority of its connection, 0 or 1.
    pub prio: u8,
    /// How many bytes it has.
    pub total: u32,
}

/// A fragment that is due.
#[derive(Clone, Copy, Debug, PartialEq, Eq)]
pub struct Due {
    /// What stands in its frame before its bytes.
    pub head: FrameHead,
    /// Where its message's bytes are.
    pub ticket: usize,
}
