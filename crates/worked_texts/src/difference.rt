//! The first difference between what came out of a run and what is wanted.

ghost use Rattle.std.specs.Prelude.{◌≡◌, ◌↔◌, None, IfOk};

use std::alloc::{AllocError, Global};
use std::fmt;
use std::fmt::{Display, Formatter};

/// What must come out of a run.
#[derive(Clone, Copy, Debug, Drop)]
pub struct Wanted<'a> {
    /// The exit status.
    pub status: u8,
    /// The report.
    pub report: &'a [u8],
}

/// What differs, the report before the status.
#[derive(Debug, Drop)]
pub enum Difference {
    /// The first line of the report that differs, from 1, and that line of both; none where the report has no such
    /// line.
    Line {
        /// The number of the line, from 1.
        number: u32,
        /// The line as it is wanted; none past the end of the wanted report.
        wanted: Option<String>,
        /// The line as it came; none past the end of the report that came.
        got: Option<String>,
    },
    /// The exit status.
    Status {
        /// The status that is wanted.
        wanted: u8,
        /// The status that came.
        got: u8,
    },
}

impl Display for Difference {
    fn fmt<W: fmt::Write>(&self, f: &mut Formatter<W>) -> fmt::Result {
        match self {
            Difference::Line {
                number,
                wanted,
                got,
            } => write!(f, "line {number}: wanted {wanted:?}, got {got:?}"),
            Difference::Status { wanted, got } => {
                write!(f, "status: wanted {wanted}, got {got}")
            }
        }
    }
}

/// What differs, if anything: none exactly where report and status are as wanted.
pub fn compare(
    alloc: Global,
    wanted: Wanted<'_>,
    status: u8,
    report: &[u8],
) -> Result<Option<Difference>, AllocError>
    ensures { IfOk result (λ found. (found ≡ None) ↔ ((report.now ≡ wanted.entry.report.now)
        × (status ≡ wanted.entry.status))) }
{
    if report != wanted.report {
        return Ok(Some(differing_line(alloc, wanted.report, report)?));
    }
    if status != wanted.status {
        return Ok(Some(Difference::Status {
            wanted: wanted.status,
            got: status,
        }));
    }
    Ok(None)
}

// The first line that differs, of two reports that do.
fn differing_line(alloc: Global, wanted: &[u8], got: &[u8]) -> Result<Difference, AllocError> {
    let mut others = got.split(|byte| *byte == b'\n');
    let mut number = 1u32;
    for line in wanted.split(|byte| *byte == b'\n') {
        let other = others.next();
        if other != Some(line) {
            return two_lines(alloc, number, Some(line), other);
        }
        number = number.saturating_add(1);
    }
    two_lines(alloc, number, None, others.next())
}

// Two lines of a number, as they are printed.
fn two_lines(
    alloc: Global,
    number: u32,
    wanted: Option<&[u8]>,
    got: Option<&[u8]>,
) -> Result<Difference, AllocError> {
    Ok(Difference::Line {
        number,
        wanted: printable(alloc, wanted)?,
        got: printable(alloc, got)?,
    })
}

// The text of a line, if there is one.
fn printable(alloc: Global, line: Option<&[u8]>) -> Result<Option<String>, AllocError> {
    match line {
        Some(bytes) => Ok(Some(String::from_utf8_lossy(alloc, bytes)?)),
        None => Ok(None),
    }
}
