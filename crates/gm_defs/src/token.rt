//! Tokens and what becomes of fragments.

/// Where a token is that its client hasn't.
#[derive(Clone, Copy, Debug, PartialEq, Eq)]
pub enum TokenPlace {
    /// With a send that isn't finished.
    Queue,
    /// With a buffer that was provided.
    Provided,
    /// In an event of the port's queue.
    Event,
}

/// What a receiver made of a frame.
#[derive(Clone, Copy, Debug, PartialEq, Eq)]
pub enum Took {
    /// Its number isn't the next.
    NotNext,
    /// No provided token takes it.
    NoToken,
    /// It was taken, and its message isn't whole.
    Part,
    /// It was taken, and its message is whole.
    Whole,
}

/// The message of which a provided token's buffer holds a part. Its priority is the token's.
#[derive(Clone, Copy, Debug, PartialEq, Eq)]
pub struct Filling {
    /// The host that sends it.
    pub src: u16,
    /// The length of the whole message.
    pub total: u32,
    /// How many of its bytes the buffer holds, from the first on.
    pub held: u32,
}
