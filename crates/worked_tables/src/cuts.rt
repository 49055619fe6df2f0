//! The frame's body, cut.

use crate::frame::BODY;
use gm_frame::decode;

/// How many cut bodies are malformed, how many aren't, and whether the whole one is read.
#[derive(Clone, Copy, Debug)]
pub(crate) struct Cuts {
    /// Refused.
    pub(crate) malformed: u32,
    /// Read as a frame or as an acknowledgement.
    pub(crate) read: u32,
    /// The whole body is read.
    pub(crate) whole: bool,
}

/// Reads the frame's body up to each place below its end, and whole.
pub(crate) fn count_cuts() -> Cuts {
    let mut cuts = Cuts {
        malformed: 0,
        read: 0,
        whole: decode(&BODY).is_ok(),
    };
    for place in 0..BODY.len() {
        let count = match decode(&BODY[..place]) {
            Ok(_) => &mut cuts.read,
            Err(_) => &mut cuts.malformed,
        };
        *count = count.saturating_add(1);
    }
    cuts
}
