//! What a step of a channel makes of its packet.

/// Why a switch drops a packet.
#[derive(Clone, Copy, Debug, PartialEq, Eq)]
pub enum Why {
    /// The turn leads to a port that the switch lacks.
    OutOfRange,
    /// The head is empty, or begins with no route byte.
    NotRoute,
    /// The port has no cable.
    NoCable,
    /// The cable is new, and the packet isn't of mapping.
    NewCable,
}

/// Where a packet goes from its channel, whatever the other channels hold.
#[derive(Clone, Copy, Debug, PartialEq, Eq)]
pub enum Course {
    /// To the host of this address.
    Arrives(u16),
    /// Into this channel, if that is empty.
    Enters(u16),
    /// Nowhere.
    Drops(Why),
}

/// What a step of a channel made of its packet, whose type is `P`.
#[derive(Debug, Drop)]
pub enum Moved<P> {
    /// It is in this channel now, without the route byte in front.
    To(u16),
    /// It is handed to the host of this address.
    AtHost(u16, P),
    /// A switch dropped it.
    Dropped(Why),
    /// It stays, since this channel holds another packet.
    Blocked(u16),
    /// The channel held none.
    Empty,
}
