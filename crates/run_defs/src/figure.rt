//! The figures of a report's lines.

use crate::line::MapWords;

/// What a summary shows of one line of a report. Most lines have none.
#[derive(Clone, Copy, Debug)]
pub enum Figure {
    /// A map was made: how far it is known to be right, its asks, and the packets that they injected.
    Mapped {
        /// How far the map is known to be right.
        words: MapWords,
        /// How many walks were asked.
        asks: u64,
        /// How many packets the asks injected.
        packets: u64,
    },
    /// So many routes were computed.
    Routed(u32),
    /// Routes were installed: on so many hosts, of so many.
    Installed {
        /// How many hosts acknowledged all of their table, the mapper among them.
        acked: u16,
        /// How many hosts the map has.
        of: u16,
    },
    /// A send was accepted.
    Accepted,
    /// A poll received a message.
    Received,
    /// A settle ended.
    Settled {
        /// How many rounds it took.
        rounds: u64,
        /// How many stuck packets were taken away.
        resets: u64,
        /// How many fragments aren't acknowledged after it.
        unacked: u64,
    },
}
