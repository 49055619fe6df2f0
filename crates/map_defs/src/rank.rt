//! Ranks of channels.

/// The rank of the channel that leaves port p of vertex v.
#[derive(Clone, Copy, Debug, PartialEq, Eq)]
pub struct RankEntry {
    /// The vertex, by its place in the map's list.
    pub v: u32,
    /// The port, from -15 to 15, counted from a switch's own entry port.
    pub p: i8,
    /// The rank; along each route ranks rise.
    pub rank: u64,
}
