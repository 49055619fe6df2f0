//! A fragment that is due, and whose bytes it is.

use crate::Ticket;
use gm_defs::FrameHead;

/// The frame that is to be sent next.
#[derive(Debug, Drop)]
pub struct DueFrame {
    /// What stands in the frame before the fragment's bytes.
    pub head: FrameHead,
    /// The send in whose buffer the bytes stand, from the head's offset on.
    pub ticket: Ticket,
}
