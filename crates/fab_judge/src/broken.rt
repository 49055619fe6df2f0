//! The broken routes of an answer.

ghost use Rattle.std.specs.Prelude.{◌≡◌, List, IfOk, Some, None};
ghost use Rattle.fab_text.specs.Line.{TextLine};
ghost use Rattle.judge_defs.specs.Form.{broken_lines};
ghost use Rattle.fab_judge.specs.Reading.{Gives, Passes, HasRead};
ghost use Rattle.fab_judge.specs.Blocks.{next_pair, pair_of_line};

use crate::reader::Reader;
use crate::stop::Unread;
use judge_defs::{is_end_of_broken, pair_due};
use port_graph::Fabric;
use report_lines::ReportLine;

/// Reads broken routes after this one, which rise, up to `endbroken`.
pub(crate) fn read_broken(f: &Fabric, reader: &mut Reader, first: (u16, u16)) -> Result<(), Unread>
    ensures said { Passes (broken_lines (Some first) reader.old.past f.now reader.old.left) reader.new.left result }
    ensures read { IfOk result (λ _. HasRead reader.old reader.new 0) }
{
    let mut before = first;
    'lines: loop {
        let next = next_pair(f, reader, before)?;
        match next {
            Some(pair) => before = pair,
            None => return Ok(()),
        }
    }
}

// The next broken route, or none at `endbroken`.
fn next_pair(
    f: &Fabric,
    reader: &mut Reader,
    before: (u16, u16),
) -> Result<Option<(u16, u16)>, Unread>
    ensures said { Gives (next_pair (Some before) reader.old.past f.now reader.old.left) reader.new.left result }
    ensures read { IfOk result (λ _. HasRead reader.old reader.new 1) }
{
    match reader.next_said(f) {
        Ok((number, line)) => pair_of_line(f, before, number, &line),
        Err(stop) => Err(stop),
    }
}

// The broken route of the line of this number, or none where it is `endbroken`.
fn pair_of_line(
    f: &Fabric,
    before: (u16, u16),
    number: u32,
    line: &ReportLine,
) -> Result<Option<(u16, u16)>, Unread>
    ensures { (left : List TextLine) → Gives (pair_of_line f.now (Some before) number left (Some line.now)) left result }
{
    if is_end_of_broken(line) {
        return Ok(None);
    }
    match pair_due(f, before, line) {
        Some(pair) => Ok(Some(pair)),
        None => Err(Unread::At(number)),
    }
}
