//! Tables of lines that are refused.

use crate::{Difference, REFUSED, Tally, TopCall, Wanted, run_word, try_text};
use std::alloc::{AllocError, Global};
use std::{fs, io};

/// Runs the front lines of a table with each of its lines after them, which is reported as the text's first fault.
pub fn try_refused<T: TopCall>(rt: &HostRuntime, name: &str, tally: &mut Tally) -> io::Result<()> {
    let front = fs::read(rt, format!(in rt.alloc(); "{name}.front")?.as_str())?;
    let table = fs::read_to_string(rt, format!(in rt.alloc(); "{name}.refused")?.as_str())?;
    for entry in table.lines() {
        let told = format!(in rt.alloc(); "{name}: {entry}")?;
        match entry.split_once(' ') {
            Some((kind, line)) => {
                let found = try_line::<T>(rt.alloc(), &front, kind, line)?;
                tally.tell(rt, &told, &found)?;
            }
            None => tally.fail(rt, &told, &"it has no line")?,
        }
    }
    Ok(())
}

// Runs the front lines with one line after them.
fn try_line<T: TopCall>(
    alloc: Global,
    front: &[u8],
    kind: &str,
    line: &str,
) -> Result<Option<Difference>, AllocError> {
    let mut text = front.to_vec(alloc)?;
    text.extend_from_slice(line.as_bytes())?;
    text.push(b'\n')?;
    let before = front.iter().filter(|byte| **byte == b'\n').count();
    let number = before.saturating_add(1);
    let report = format!(in alloc; "refused {number} {kind}\n")?.into_bytes();
    let wanted = Wanted {
        status: REFUSED,
        report: &report,
    };
    try_text::<T>(alloc, &run_word(alloc)?, &text, wanted)
}
