//! One run over memory.

use crate::difference::{Difference, Wanted, compare};
use crate::row::Row;
use fab_outer::{MemSink, MemSource};
use fab_text::Word;
use std::alloc::{AllocError, Global};

/// The most bytes of a read or a write: few, so that lines come and go in parts.
pub const PIECE: usize = 7;

/// The exit status of a run whose text is refused.
pub const REFUSED: u8 = 3;

/// The call through which texts are run.
pub trait TopCall {
    /// Runs what a source has under the words of a command line, writes the report into a sink, and answers the exit
    /// status.
    fn run(alloc: Global, words: &[Word], source: &mut MemSource, sink: &mut MemSink) -> u8;
}

/// Runs a text with its words, and says what differs from what is wanted of it.
pub fn try_row<T: TopCall>(alloc: Global, row: &Row) -> Result<Option<Difference>, AllocError> {
    try_text::<T>(alloc, &row.words, &row.text, row.wanted())
}

/// Runs a text whose reads and writes all succeed, and says what differs from what is wanted. There is room for the
/// wanted report before the run, so that no write of it takes memory.
pub fn try_text<T: TopCall>(
    alloc: Global,
    words: &[Word],
    text: &[u8],
    wanted: Wanted<'_>,
) -> Result<Option<Difference>, AllocError> {
    let source = MemSource::new(text.to_vec(alloc)?, PIECE, Vec::new(alloc));
    let sink = MemSink::with_room(alloc, wanted.report.len(), PIECE, Vec::new(alloc))?;
    try_run::<T>(alloc, words, source, sink, wanted)
}

/// Runs what a source has, and says what differs from what is wanted.
pub fn try_run<T: TopCall>(
    alloc: Global,
    words: &[Word],
    mut source: MemSource,
    mut sink: MemSink,
    wanted: Wanted<'_>,
) -> Result<Option<Difference>, AllocError> {
    let status = T::run(alloc, words, &mut source, &mut sink);
    compare(alloc, wanted, status, sink.taken())
}
