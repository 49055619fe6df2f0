//! What stands on a message beside its bytes.

/// From which port to which, and how urgent.
#[derive(Clone, Copy, Debug, PartialEq, Eq)]
pub struct Envelope {
    /// The sending port, below 8.
    pub sport: u8,
    /// The receiving port, below 8.
    pub dport: u8,
    /// 0 or 1.
    pub prio: u8,
}
