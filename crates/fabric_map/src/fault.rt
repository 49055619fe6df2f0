//! Why a vertex or a cable is refused.

use thiserror::Error;

/// Why a map doesn't take a vertex or a cable.
#[derive(Clone, Copy, Debug, PartialEq, Eq, Error)]
pub enum MapFault {
    /// A host that stands in the map.
    #[error("the host is taken")]
    HostTaken,
    /// More than 4,294,967,295 vertices, or cables.
    #[error("the map is full")]
    Full,
    /// An end of the cable at a place past the last vertex.
    #[error("no such vertex")]
    NoVertex,
    /// A host's port other than 0, a port outside -15 to 15, or two ports of one vertex that are more than 15 apart.
    #[error("no such port")]
    PortRange,
    /// A port that has a cable, or a cable from a port to itself.
    #[error("the port has a cable")]
    PortUsed,
    /// Memory ran out; the map stays.
    #[error("out of memory")]
    NoMemory,
}
