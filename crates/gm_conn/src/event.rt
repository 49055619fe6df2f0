//! What happens to a pair.

/// A message of a pair: its length.
#[derive(Clone, Copy, Debug, PartialEq, Eq)]
pub struct PairMsg {
    /// How many bytes it has.
    pub total: u32,
}

/// One event.
#[derive(Clone, Copy, Debug, PartialEq, Eq)]
pub enum PairEvent {
    /// A message of so many bytes is offered.
    Offer {
        /// How many bytes it has.
        total: u32,
    },
    /// The due frame is emitted.
    Emit,
    /// The acknowledgement of what was taken is emitted.
    EmitAck,
    /// The packet of this place among all that were emitted arrives; `fits` says whether a token takes its fragment.
    Deliver {
        /// The packet's place among those that were emitted, from 0.
        packet: u32,
        /// Whether a provided token takes its fragment; of no meaning for an acknowledgement.
        fits: bool,
    },
    /// The sender's time runs out.
    Expire,
}
