//! What happens to two ends.

/// One event, at end 0 or 1 or at the medium.
#[derive(Clone, Copy, Debug, PartialEq, Eq)]
pub enum DuoEvent {
    /// The client of an end sends a message: byte i is the seed plus i, modulo 256.
    Send {
        /// The end, 0 or 1.
        x: u8,
        /// The message's length in bytes.
        len: u32,
        /// Its first byte.
        seed: u8,
    },
    /// The client of an end provides a buffer.
    Provide {
        /// The end, 0 or 1.
        x: u8,
        /// The buffer's size, 4 to 16.
        size: u8,
    },
    /// An end emits a packet, where it has one to emit.
    Emit(u8),
    /// The packet of a place in the medium reaches the other end, however often it did before.
    Deliver(u64),
    /// The timer of an end runs out.
    Expire(u8),
    /// The client of an end takes the first event of its queue.
    Poll(u8),
    /// An end restarts, and its client with it. Only its incarnation survives, and is one greater then.
    Restart(u8),
}
