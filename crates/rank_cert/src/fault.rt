//! Why routes are not certified.

use thiserror::Error;

/// The first fault of routes and ranks.
#[derive(Clone, Copy, Debug, PartialEq, Eq, Error)]
pub enum CheckFault {
    /// A route that doesn't lead to its host.
    #[error("the route from {from} to {to} leads elsewhere")]
    BadRoute {
        /// The address of the route's sender.
        from: u16,
        /// The address of the host to which it should lead.
        to: u16,
    },
    /// A channel in use without a rank.
    #[error("port {p} of vertex {v} has no rank")]
    NoRank {
        /// The vertex that the channel leaves, by its place in the map's list.
        v: u32,
        /// The port by which it leaves, counted from the vertex's own entry port.
        p: i8,
    },
    /// The ranks don't rise from channel c to the next channel d of a route.
    #[error("the rank rises not from {rank_c} to {rank_d}")]
    BadRank {
        /// The earlier channel, by the place of its vertex and its port.
        c: (u32, i8),
        /// The channel after it, likewise.
        d: (u32, i8),
        /// The rank of `c`.
        rank_c: u64,
        /// The rank of `d`, which isn't greater.
        rank_d: u64,
    },
}
