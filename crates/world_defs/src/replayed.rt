//! What a replay makes of a packet in limbo.

/// What a replay made of the packet of a serial.
#[derive(Clone, Copy, Debug, PartialEq, Eq)]
pub enum Replayed {
    /// It is back in this channel.
    Back(u16),
    /// It stays, since this channel holds another packet.
    Busy(u16),
    /// Limbo has no packet of the serial.
    Unknown,
}
