//! The files of the folder.

use crate::{Row, Tally, TopCall, try_cuts, try_refused, try_row};
use std::alloc::AllocError;
use std::{fs, io};

/// Runs the text of each file `NAME.in` and the table of each file `NAME.refused`, by name. A file that belongs to
/// neither fails, but for one without an ending.
pub fn try_files<T: TopCall>(rt: &HostRuntime, tally: &mut Tally) -> io::Result<()> {
    let files = files(rt)?;
    for file in &files {
        match file.rsplit_once('.') {
            Some((name, kind)) if kind == "in" => try_text::<T>(rt, name, tally)?,
            Some((name, kind)) if kind == "cuts" => try_cuts::<T>(rt, name, tally)?,
            Some((name, kind)) if kind == "refused" => try_refused::<T>(rt, name, tally)?,
            Some((name, kind)) if has_first(rt, &files, name, kind)? => {}
            Some(_) => tally.fail(rt, file, &"it belongs to no text")?,
            None => {}
        }
    }
    Ok(())
}

/// The names of all files, in order.
pub(crate) fn files(rt: &HostRuntime) -> io::Result<Vec<String>> {
    let mut files = Vec::new(rt.alloc());
    for entry in fs::read_dir(rt, ".")? {
        files.push(String::from_str(rt.alloc(), entry?.file_name())?)?;
    }
    files.sort()?;
    Ok(files)
}

// Whether there is the first file of the text, or of the table, that has a file of this kind beside it.
fn has_first(
    rt: &HostRuntime,
    files: &[String],
    name: &str,
    kind: &str,
) -> Result<bool, AllocError> {
    let Some(first) = first_of(kind) else {
        return Ok(false);
    };
    let first = format!(in rt.alloc(); "{name}.{first}")?;
    Ok(files.contains(&first))
}

// The kind of file beside which one of this kind stands.
fn first_of(kind: &str) -> Option<&str> {
    if kind == "out" || kind == "words" || kind == "status" {
        Some("in")
    } else if kind == "front" {
        Some("refused")
    } else {
        None
    }
}

// Runs one text.
fn try_text<T: TopCall>(rt: &HostRuntime, name: &str, tally: &mut Tally) -> io::Result<()> {
    match Row::read(rt, name)? {
        Some(row) => tally.tell(rt, name, &try_row::<T>(rt.alloc(), &row)?),
        None => tally.fail(rt, name, &"it has no report"),
    }
}
