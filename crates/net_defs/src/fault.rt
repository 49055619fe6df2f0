//! Why a vertex or a cable is refused.

use thiserror::Error;

/// Why a fabric doesn't take a vertex or a cable.
#[derive(Clone, Copy, Debug, PartialEq, Eq, Error)]
pub enum GraphFault {
    /// A number of ports other than 4, 8 and 16, or a port that the vertex lacks.
    #[error("no such port, or number of ports")]
    PortRange,
    /// A host or a switch has the name.
    #[error("the name is taken")]
    NameTaken,
    /// 128 hosts, or 64 switches.
    #[error("the fabric is full")]
    Full,
    /// An end of the cable at a host or a switch that the fabric lacks.
    #[error("no such vertex")]
    NoVertex,
    /// A port that has a cable, or a cable from a port to itself.
    #[error("the port has a cable")]
    PortUsed,
    /// Memory ran out; the fabric stays.
    #[error("out of memory")]
    NoMemory,
}
