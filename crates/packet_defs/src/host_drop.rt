//! Why a host drops a packet.

/// Why a host drops a packet whose body needn't be read for it. The first that holds is named.
#[derive(Clone, Copy, Debug, PartialEq, Eq)]
pub enum HostDrop {
    /// The CRC isn't the one that is due.
    BadCrc,
    /// The head begins with 0x80 or more.
    RouteLeft,
    /// The type is neither of the two.
    UnknownType,
    /// The head is shorter than a type.
    Malformed,
}
