//! A text that is cut at each place.

use crate::{Difference, REFUSED, Row, Tally, TopCall, Wanted, try_text};
use std::alloc::{AllocError, Global};
use std::{fs, io};

// What the table says of a cut after which the text is still accepted: the report is the whole text's.
const DONE: &str = "done";

/// Runs a text cut at each place, from its first byte to after its last. Each line of the table is what must come of a
/// cut, in this order: the line of a refusal, or `done`.
pub fn try_cuts<T: TopCall>(rt: &HostRuntime, name: &str, tally: &mut Tally) -> io::Result<()> {
    let Some(row) = Row::read(rt, name)? else {
        return tally.fail(rt, name, &"it has no report");
    };
    let table = fs::read_to_string(rt, format!(in rt.alloc(); "{name}.cuts")?.as_str())?;
    let places = table.lines().count();
    if places != row.text.len().saturating_add(1) {
        return tally.fail(rt, name, &"its cuts aren't a line for each place");
    }
    let told = format!(in rt.alloc(); "{name}, cut at each of {places} places")?;
    tally.tell(rt, &told, &try_places::<T>(rt.alloc(), &row, &table)?)
}

// What differs at the first cut that isn't as its line says.
fn try_places<T: TopCall>(
    alloc: Global,
    row: &Row,
    table: &str,
) -> Result<Option<Difference>, AllocError> {
    for (place, line) in table.lines().enumerate() {
        let cut = &row.text[..place.min(row.text.len())];
        let found = try_cut::<T>(alloc, row, cut, line)?;
        if found.is_some() {
            return Ok(found);
        }
    }
    Ok(None)
}

// Runs a text that is cut, and says what differs from what its line says.
fn try_cut<T: TopCall>(
    alloc: Global,
    row: &Row,
    cut: &[u8],
    line: &str,
) -> Result<Option<Difference>, AllocError> {
    if line == DONE {
        return try_text::<T>(alloc, &row.words, cut, row.wanted());
    }
    let report = format!(in alloc; "{line}\n")?.into_bytes();
    let wanted = Wanted {
        status: REFUSED,
        report: &report,
    };
    try_text::<T>(alloc, &row.words, cut, wanted)
}
