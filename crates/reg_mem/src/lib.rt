//! Registered buffers: bytes that one owner has at a time.
//!
//! A `Reg` can't be cloned and can't be let go: it moves from the client to a port and back, and ends in
//! [`deregister`] or [`release`]. This crate holds no port. `specs/Written.antt` says what a buffer has after a message
//! was written into it.
//!
//! The message of a send shares the buffer's bytes, where it is long; so they lie in memory once, though buffer and
//! message each keep theirs. When the two part, as in [`deregister`], the buffer's bytes are copied into room that was
//! taken when they were shared. A buffer of zeros or of bytes that count up has room for them from the start, and
//! writes them out once something is written into it. `specs/Held.antt` says what is held.
//!
//! ```text
//!   bytes   registered     bytes
//!   Vec  ------ Reg ------ Vec
//!     register     deregister
//! ```
#![tactic(auto)]

mod held;
mod reg;
mod rooms;

pub use reg::{Reg, counted, deregister, register, release, release_into, zeroed, zeroed_in};
pub use rooms::Rooms;
