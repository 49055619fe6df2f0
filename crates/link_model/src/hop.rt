//! What a hop came to, a run of hops, and a packet carried to its end.

use world_defs::Why;

/// What a hop made of a channel's packet.
#[derive(Clone, Copy, Debug, PartialEq, Eq)]
pub enum Hop {
    /// It is in this channel now, without the route byte in front.
    Moved(u16),
    /// It stays, since this channel holds another packet.
    Blocked(u16),
    /// Nothing was tried: the channel holds no packet, or one that goes into no channel.
    Untried,
}

/// How far a packet went from channel to channel.
#[derive(Clone, Copy, Debug, PartialEq, Eq)]
pub struct Run {
    /// How many channels it entered.
    pub hops: u16,
    /// The channel that it is in now.
    pub at: u16,
}

/// How a packet went through idle links.
#[derive(Clone, Copy, Debug, PartialEq, Eq)]
pub struct Carried {
    /// How many channels it entered after its first.
    pub hops: u16,
    /// The host that it reached, or why a switch dropped it.
    pub end: Result<u16, Why>,
}
