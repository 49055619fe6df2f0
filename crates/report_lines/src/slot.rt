//! The parts of a form, as the code reads them.

/// What one word of a form may be.
#[derive(Clone, Copy, Debug)]
pub enum WordKind {
    /// Digits of a number of which only the form is judged.
    Digits,
    /// A host of the fabric.
    HostName,
    /// One of these words.
    OneOf(&'static [&'static [u8]]),
}

/// A part of a form of which no value is judged.
#[derive(Clone, Copy, Debug)]
pub enum Slot {
    /// This word.
    Fixed(&'static [u8]),
    /// A word of a kind.
    Of(WordKind),
    /// An end of the fabric, by two words.
    AnEnd,
    /// The same with this word between.
    AnEndBy(&'static [u8]),
}
