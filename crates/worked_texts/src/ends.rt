//! Texts whose reads and writes fail, one after another.
//!
//! Each read and each write moves one byte. A read that fails is answered as a read fault, and nothing is written. A
//! write that fails is answered as a write fault, and the sink has taken what went before it: so many bytes of the
//! report as there were writes.

use crate::{Difference, PIECE, Row, Tally, TopCall, Wanted, try_run};
use fab_outer::{MemSink, MemSource};
use std::alloc::{AllocError, Global};
use std::io;

// The exit statuses of a run whose read failed, and of one whose write failed.
const READ_FAULT: u8 = 4;

const WRITE_FAULT: u8 = 5;

// The first text, one that is refused, one of walks, and one of clients' calls.
const TEXTS: [&str; 4] = [
    "first-walk",
    "refused-line-after-end",
    "walk-four-times",
    "client-refusals",
];

/// Runs a few texts over and over, so that each read and each write of them fails once.
pub fn try_ends<T: TopCall>(rt: &HostRuntime, tally: &mut Tally) -> io::Result<()> {
    for name in TEXTS {
        try_text::<T>(rt, name, tally)?;
    }
    Ok(())
}

// Lets each read and each write of one text fail.
fn try_text<T: TopCall>(rt: &HostRuntime, name: &str, tally: &mut Tally) -> io::Result<()> {
    let Some(row) = Row::read(rt, name)? else {
        return tally.fail(rt, name, &"it has no report");
    };
    let reads = number(row.text.len()).saturating_add(1);
    let told = format!(in rt.alloc(); "{name}, each of {reads} reads failing")?;
    tally.tell(rt, &told, &try_reads::<T>(rt.alloc(), &row, reads)?)?;
    let writes = row.report.len();
    let told = format!(in rt.alloc(); "{name}, each of {writes} writes failing")?;
    tally.tell(rt, &told, &try_writes::<T>(rt.alloc(), &row)?)
}

// Lets each read fail, of one byte each, and also the one that would find the end.
fn try_reads<T: TopCall>(
    alloc: Global,
    row: &Row,
    reads: u32,
) -> Result<Option<Difference>, AllocError> {
    let wanted = Wanted {
        status: READ_FAULT,
        report: b"",
    };
    for call in 1..=reads {
        let source = MemSource::new(row.text.to_vec(alloc)?, 1, vec![in alloc; call]?);
        let sink = MemSink::with_room(alloc, wanted.report.len(), PIECE, Vec::new(alloc))?;
        let found = try_run::<T>(alloc, &row.words, source, sink, wanted)?;
        if found.is_some() {
            return Ok(found);
        }
    }
    Ok(None)
}

// Lets each write fail, of one byte each.
fn try_writes<T: TopCall>(alloc: Global, row: &Row) -> Result<Option<Difference>, AllocError> {
    for taken in 0..row.report.len() {
        let source = MemSource::new(row.text.to_vec(alloc)?, row.text.len(), Vec::new(alloc));
        let fail = vec![in alloc; number(taken).saturating_add(1)]?;
        let sink = MemSink::with_room(alloc, row.report.len(), 1, fail)?;
        let wanted = Wanted {
            status: WRITE_FAULT,
            report: &row.report[..taken],
        };
        let found = try_run::<T>(alloc, &row.words, source, sink, wanted)?;
        if found.is_some() {
            return Ok(found);
        }
    }
    Ok(None)
}

// A count of bytes as the number of a call.
fn number(count: usize) -> u32 {
    u32::try_from(count).unwrap_or(u32::MAX)
}
