//! The vertices and cables of a map.

/// A host by its address, or a switch by its number among the map's switches.
#[derive(Clone, Copy, Debug, PartialEq, Eq)]
pub enum MapVertex {
    /// The host of this address.
    Host(u16),
    /// The switch of this number among the map's switches, from 0.
    Switch(u32),
}

/// A cable of a map: port p of vertex v and port q of vertex w. Vertices are places in the map's list; ports count
/// from each switch's own entry port and may be negative.
#[derive(Clone, Copy, Debug, PartialEq, Eq)]
pub struct MapCable {
    /// The vertex at the first end, by its place.
    pub v: u32,
    /// The port at the first end, from -15 to 15.
    pub p: i8,
    /// The vertex at the second end, by its place.
    pub w: u32,
    /// The port at the second end, from -15 to 15.
    pub q: i8,
}
