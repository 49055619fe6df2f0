//! Hosts, switches, their ports and the cables between them.

/// A host by its address, or a switch by its number. Both count from 0 in the order of the fabric's text.
#[derive(Clone, Copy, Debug, PartialEq, Eq)]
pub enum Vertex {
    /// The host of this address.
    Host(u16),
    /// The switch of this number.
    Switch(u16),
}

/// A port of a vertex, where a cable may end. A host has port 0 alone.
#[derive(Clone, Copy, Debug, PartialEq, Eq)]
pub struct End {
    /// The host or switch that has the port.
    pub v: Vertex,
    /// The port's number, from 0.
    pub p: u8,
}

/// A cable by its two ends, in the order in which the fabric's text names them.
#[derive(Clone, Copy, Debug, PartialEq, Eq)]
pub struct Cable {
    /// The end that is named first.
    pub a: End,
    /// The end that is named second.
    pub b: End,
}
