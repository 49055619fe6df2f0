//! The reports of the folder, each judged after its text.

use crate::folder::files;
use crate::{Difference, Row, Tally, TopCall, Wanted, try_text};
use fab_text::Word;
use std::alloc::{AllocError, Global};
use std::io;

// What must come of a report that a run wrote.
const YES: &[u8] = b"judge yes\n";

// How a line begins after which no report is judged.
const UNJUDGED: [&str; 2] = ["plan pull ", "duo "];

/// Judges the report of each text that runs to its end: each is right. A text is left out where a line of its script
/// is one after which no report is judged.
pub fn try_reports<T: TopCall>(rt: &HostRuntime, tally: &mut Tally) -> io::Result<()> {
    for file in &files(rt)? {
        match file.rsplit_once('.') {
            Some((name, kind)) if kind == "in" => try_report::<T>(rt, name, tally)?,
            _ => {}
        }
    }
    Ok(())
}

// Judges the report of one text, where it is judged.
fn try_report<T: TopCall>(rt: &HostRuntime, name: &str, tally: &mut Tally) -> io::Result<()> {
    match Row::read(rt, name)? {
        Some(row) if is_judged(&row) => {
            let told = format!(in rt.alloc(); "{name}, its report judged")?;
            tally.tell(rt, &told, &try_judged::<T>(rt.alloc(), &row)?)
        }
        _ => Ok(()),
    }
}

// Whether a text runs to its end, and its report is judged.
fn is_judged(row: &Row) -> bool {
    row.status == 0 && is_run(row) && !has_unjudged(&row.text)
}

// Whether the words are the one word `run`.
fn is_run(row: &Row) -> bool {
    match row.words.as_slice() {
        [word] => word.bytes() == b"run".as_slice(),
        _ => false,
    }
}

// Whether some line is one after which no report is judged.
fn has_unjudged(text: &[u8]) -> bool {
    let Ok(text) = std::str::from_utf8(text) else {
        return false;
    };
    for line in text.lines() {
        for first in &UNJUDGED {
            if line.starts_with(*first) {
                return true;
            }
        }
    }
    false
}

// Judges a report after its text, and says what differs from yes.
fn try_judged<T: TopCall>(alloc: Global, row: &Row) -> Result<Option<Difference>, AllocError> {
    let mut both = row.text.to_vec(alloc)?;
    if both.last() != Some(&b'\n') {
        both.push(b'\n')?;
    }
    both.extend_from_slice(&row.report)?;
    let mut words = Vec::new(alloc);
    words.push(Word::new(b"judge".to_vec(alloc)?))?;
    let wanted = Wanted {
        status: 0,
        report: YES,
    };
    try_text::<T>(alloc, &words, &both, wanted)
}
