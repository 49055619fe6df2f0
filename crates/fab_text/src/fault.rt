//! What can be wrong with a word, a line or a text.

ghost use Rattle.std.specs.Prelude.{◌≡◌};
ghost use Rattle.fab_text.specs.Fault.{kind_word, kind_of_number, fault_at};

use thiserror::Error;

/// Why a word is no number of its place.
#[derive(Clone, Copy, Debug, PartialEq, Eq, Error)]
pub enum NumFault {
    /// The word isn't of the form: digits, for a turn after at most one sign.
    #[error("not a number")]
    NotNumber,
    /// Its value is outside the range of its place, above or below.
    #[error("the number is too large for its place")]
    TooLarge,
}

/// What is wrong with a line of a text.
#[derive(Clone, Copy, Debug, PartialEq, Eq, Error)]
pub enum FaultKind {
    /// An unknown first word, a wrong number of words, or a word that is no name.
    #[error("an unknown first word, a wrong number of words, or a word that is no name")]
    BadWord,
    /// A word that is no number, at the place of one.
    #[error("not a number")]
    NotNumber,
    /// A number outside the range of its place.
    #[error("the number is too large for its place")]
    TooLarge,
    /// A host or switch of this name stands already.
    #[error("the name is taken")]
    NameTaken,
    /// No vertex has the name, or a switch has it where a host must stand.
    #[error("no such vertex")]
    NoVertex,
    /// A number of ports other than 4, 8 and 16, or a port that the vertex lacks.
    #[error("no such port, or number of ports")]
    PortRange,
    /// A port that has a cable, or a cable from a port to itself.
    #[error("the port has a cable")]
    PortUsed,
    /// A host past the 128th, or a switch past the 64th.
    #[error("the fabric is full")]
    Full,
    /// The text ends before `script` or before `end`. Its line is one past the last.
    #[error("the text ends too early")]
    NoEnd,
    /// A line after `end` that is neither blank nor a comment.
    #[error("a line follows the end")]
    AfterEnd,
}

impl FaultKind {
    /// The kind in lower-case letters, as a report shows it.
    pub fn word(self) -> &'static [u8]
        ensures { result.now ≡ kind_word self }
    {
        match self {
            FaultKind::BadWord => b"badword",
            FaultKind::NotNumber => b"notnumber",
            FaultKind::TooLarge => b"toolarge",
            FaultKind::NameTaken => b"nametaken",
            FaultKind::NoVertex => b"novertex",
            FaultKind::PortRange => b"portrange",
            FaultKind::PortUsed => b"portused",
            FaultKind::Full => b"full",
            FaultKind::NoEnd => b"noend",
            FaultKind::AfterEnd => b"afterend",
        }
    }
}

impl From<NumFault> for FaultKind {
    fn from(fault: NumFault) -> FaultKind
        ensures { result ≡ kind_of_number fault }
    {
        match fault {
            NumFault::NotNumber => FaultKind::NotNumber,
            NumFault::TooLarge => FaultKind::TooLarge,
        }
    }
}

/// Why a line isn't read.
#[derive(Clone, Copy, Debug, PartialEq, Eq, Error)]
pub enum LineFault {
    /// Its first fault.
    #[error("{0}")]
    Wrong(FaultKind),
    /// Memory ran out while it was read.
    #[error("out of memory")]
    NoMemory,
}

impl LineFault {
    /// The fault of the text that has it in this line.
    pub fn at(self, line: u32) -> TextFault
        ensures { result ≡ fault_at line self }
    {
        match self {
            LineFault::Wrong(kind) => TextFault::At { line, kind },
            LineFault::NoMemory => TextFault::NoMemory,
        }
    }
}

/// Why a text isn't read.
#[derive(Clone, Copy, Debug, PartialEq, Eq, Error)]
pub enum TextFault {
    /// Its first fault: the first line that has one, and the first of that line.
    #[error("line {line}: {kind}")]
    At {
        /// The number of the line, from 1.
        line: u32,
        /// What is wrong with it.
        kind: FaultKind,
    },
    /// Memory ran out while it was read.
    #[error("out of memory")]
    NoMemory,
}
