//! A line of a report by its first word.

ghost use Rattle.std.specs.Prelude.{◌≡◌, ◌∷◌, IfOk};
ghost use Rattle.fab_text.specs.Line.{words_of};
ghost use Rattle.report_lines.specs.Lines.{line_said};

use crate::ReportLine;
use crate::by_word::read_other;
use crate::calls::{accepted, closed, opened, provided};
use crate::polls::{polled, tokens};
use fab_text::{Words, words};
use port_graph::Fabric;
use std::alloc::{AllocError, Global};

/// What a line of a report says by its words. None where it is of no form that a report has.
///
/// Memory is taken for the turns of a route, the bytes of a message and the places of tokens.
pub fn read_line(
    alloc: Global,
    fabric: &Fabric,
    line: &[u8],
) -> Result<Option<ReportLine>, AllocError>
    ensures { IfOk result (λ r. r ≡ line_said fabric.now (words_of line.now)) }
{
    let mut args = words(line);
    match args.next_word() {
        Some(first) => read_by(alloc, fabric, first, args),
        None => Ok(None),
    }
}

// The same of a line that begins with this word.
fn read_by(
    alloc: Global,
    fabric: &Fabric,
    first: &[u8],
    args: Words,
) -> Result<Option<ReportLine>, AllocError>
    ensures { IfOk result (λ r. r ≡ line_said fabric.now (first.now ∷ words_of args.entry)) }
{
    if first == b"open".as_slice() {
        Ok(opened(fabric, args))
    } else if first == b"close".as_slice() {
        Ok(closed(fabric, args))
    } else if first == b"provide".as_slice() {
        Ok(provided(fabric, args))
    } else if first == b"send".as_slice() {
        Ok(accepted(fabric, args))
    } else if first == b"poll".as_slice() {
        polled(alloc, fabric, args)
    } else if first == b"tokens".as_slice() {
        tokens(alloc, fabric, args)
    } else {
        read_other(alloc, fabric, first, args)
    }
}
