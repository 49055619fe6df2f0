//! Where a switch sends a packet.

/// Where a switch sends a packet by the first byte of its head.
#[derive(Clone, Copy, Debug, PartialEq, Eq)]
pub enum Turned {
    /// By this port.
    Out(u8),
    /// The turn leads to a port that the switch lacks.
    OutOfRange,
    /// The head is empty, or begins with no route byte.
    NotRoute,
}
