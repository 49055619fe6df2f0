//! The bytes of frames and acknowledgements, written and read.
//!
//! It keeps no connection and holds no buffer. `specs/Body.antt` of `gm_defs` says what a body is, and
//! `specs/Written.antt` what a reader may conclude from one.
//!
//! ```text
//!   frame            1 version src:2 dst:2 sport dport prio seq:4 total:4 offset:4 len:2 | len bytes
//!   acknowledgement  2 version src:2 dst:2 prio next:4
//! ```
#![tactic(auto)]

mod reading;
mod writing;

pub use gm_defs::{Ack, Blob, FrameHead, GmBody, Malformed};
pub use reading::{decode, part_of};
pub use writing::{append_ack, append_frame, encode_ack, encode_frame};

// The kinds of body.
const FRAME: u8 = 1;

const ACK: u8 = 2;

// The version of both.
const VERSION: u8 = 2;

/// The bytes of a frame before those of its fragment.
pub const FRAME_LENGTH: usize = 23;

/// The bytes of an acknowledgement.
pub const ACK_LENGTH: usize = 11;
