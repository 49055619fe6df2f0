//! The two kinds of packet.

/// What a packet's type says of its payload.
#[derive(Clone, Copy, Debug, PartialEq, Eq)]
pub enum Kind {
    /// Type 0x0005: probes, replies, route parts and their acknowledgements.
    Mapping,
    /// Type 0x0008: frames and acknowledgements of messages.
    Gm,
}
