//! How a run ends.

ghost use Rattle.std.specs.Prelude.{◌≡◌};

use fab_text::FaultKind;

/// How a run ends.
#[derive(Clone, Copy, Debug, PartialEq, Eq)]
pub enum Status {
    /// The text was read to its end and accepted, and the whole report was taken.
    Done,
    /// The words are none of the forms. Nothing was read or written.
    Usage,
    /// The text isn't accepted. The line `refused LINE KIND` was taken, which reports the first fault.
    Refused {
        /// The number of the line, from 1.
        line: u32,
        /// What is wrong with it.
        kind: FaultKind,
    },
    /// A read failed. Nothing was written.
    ReadFault,
    /// A write failed. The sink took a prefix of what was due, and not all of it.
    WriteFault,
    /// Memory ran out. The sink took a prefix of what was due.
    NoMemory,
    /// More than 1,048,576 bytes came. Nothing was written.
    TooLong,
}

impl Status {
    ghost use Rattle.fabric_run.specs.Ends.{status_number};

    /// The exit status of a program that ends so.
    pub fn number(self) -> u8
        ensures { result ≡ status_number self }
    {
        match self {
            Status::Done => 0,
            Status::Usage => 2,
            Status::Refused { .. } => 3,
            Status::ReadFault => 4,
            Status::WriteFault => 5,
            Status::NoMemory => 6,
            Status::TooLong => 7,
        }
    }
}
