//! The longest input, and one that is longer. Both are spaces alone.

use crate::{REFUSED, Tally, TopCall, Wanted, run_word, try_run};
use fab_outer::{MemSink, MemSource};
use std::io;

// The most bytes of an input, and of a read.
const LONGEST: usize = 1_048_576;

const PIECE: usize = 65_536;

/// Runs an input of the greatest length, which has no script, and one with a byte more, of which nothing is reported.
pub fn try_limit<T: TopCall>(rt: &HostRuntime, tally: &mut Tally) -> io::Result<()> {
    try_spaces::<T>(
        rt,
        tally,
        "spaces-of-the-longest-input",
        LONGEST,
        REFUSED,
        b"refused 2 noend\n",
    )?;
    try_spaces::<T>(
        rt,
        tally,
        "spaces-past-the-longest-input",
        LONGEST + 1,
        7,
        b"",
    )
}

// Runs so many spaces.
fn try_spaces<T: TopCall>(
    rt: &HostRuntime,
    tally: &mut Tally,
    name: &str,
    count: usize,
    status: u8,
    report: &[u8],
) -> io::Result<()> {
    let alloc = rt.alloc();
    let source = MemSource::new(vec![in alloc; b' '; count]?, PIECE, Vec::new(alloc));
    let sink = MemSink::with_room(alloc, report.len(), PIECE, Vec::new(alloc))?;
    let found = try_run::<T>(
        alloc,
        &run_word(alloc)?,
        source,
        sink,
        Wanted { status, report },
    )?;
    tally.tell(rt, name, &found)
}
