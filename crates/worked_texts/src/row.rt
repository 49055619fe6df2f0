//! One worked text.

use crate::difference::Wanted;
use fab_text::Word;
use std::alloc::{AllocError, Global};
use std::io::{Error, ErrorKind};
use std::{fs, io};

/// A worked text: what goes in, and what must come out.
#[derive(Debug, Drop)]
pub struct Row {
    /// The words of the command line.
    pub words: Vec<Word>,
    /// What is read.
    pub text: Vec<u8>,
    /// The report that must be written.
    pub report: Vec<u8>,
    /// The exit status in which the run must end.
    pub status: u8,
}

impl Row {
    /// The text of this name, from its files; none where it has no report.
    pub fn read(rt: &HostRuntime, name: &str) -> io::Result<Option<Row>> {
        let text = file(rt, name, "in")?.ok_or(Error::from(ErrorKind::NotFound))?;
        let Some(report) = file(rt, name, "out")? else {
            return Ok(None);
        };
        let words = match file(rt, name, "words")? {
            Some(lines) => words_of(rt.alloc(), &lines)?,
            None => run_word(rt.alloc())?,
        };
        let status = match file(rt, name, "status")? {
            Some(number) => status_of(&number)?,
            None => 0,
        };
        Ok(Some(Row {
            words,
            text,
            report,
            status,
        }))
    }

    /// What must come out of it where nothing fails.
    pub fn wanted(&self) -> Wanted<'_> {
        Wanted {
            status: self.status,
            report: &self.report,
        }
    }
}

/// The one word `run`.
pub fn run_word(alloc: Global) -> Result<Vec<Word>, AllocError> {
    let mut words = Vec::new(alloc);
    words.push(Word::new(b"run".to_vec(alloc)?))?;
    Ok(words)
}

// What a file of a text has, if there is one.
fn file(rt: &HostRuntime, name: &str, kind: &str) -> io::Result<Option<Vec<u8>>> {
    let path = format!(in rt.alloc(); "{name}.{kind}")?;
    match fs::read(rt, path.as_str()) {
        Ok(bytes) => Ok(Some(bytes)),
        Err(e) if e.kind() == ErrorKind::NotFound => Ok(None),
        Err(e) => Err(e),
    }
}

// The words that lines have, one each.
fn words_of(alloc: Global, lines: &[u8]) -> io::Result<Vec<Word>> {
    let mut words = Vec::new(alloc);
    for line in text_of(lines)?.lines() {
        words.push(Word::new(line.as_bytes().to_vec(alloc)?))?;
    }
    Ok(words)
}

// The number that a file of one line has.
fn status_of(line: &[u8]) -> io::Result<u8> {
    match text_of(line)?.trim().parse() {
        Ok(status) => Ok(status),
        Err(_) => Err(Error::from(ErrorKind::InvalidData)),
    }
}

// Bytes as text.
fn text_of(bytes: &[u8]) -> io::Result<&str> {
    match std::str::from_utf8(bytes) {
        Ok(text) => Ok(text),
        Err(_) => Err(Error::from(ErrorKind::InvalidData)),
    }
}
