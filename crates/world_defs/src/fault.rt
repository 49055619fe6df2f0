//! What may be planned for an injection.

use net_defs::End;

/// A fault that strikes as soon as a packet is injected.
#[derive(Clone, Copy, Debug, PartialEq, Eq)]
pub enum Fault {
    /// The packet is gone.
    Lose,
    /// A copy of the packet comes into limbo.
    Repeat,
    /// The packet itself comes into limbo.
    Hold,
    /// Bits of the packet are flipped.
    Flip {
        /// The first bit that the pattern lies on; bit 0 is the greatest of the first byte.
        bit: u32,
        /// A 1 for each bit that is flipped, the greatest first; with 0 nothing is flipped.
        pattern: u8,
    },
    /// The cable at this port is taken out, with all that it holds.
    Pull {
        /// One of the cable's two ports.
        at: End,
    },
}
