//! Runs each worked text of the folder that it is started in through the top call, over memory, and compares what
//! comes out.
//!
//! The texts lie in `data/`, as files that `worked_texts` describes. A line is printed for each run, by name: `ok
//! NAME`, or `failed NAME` with the first difference. A file that belongs to no text, and a text without its report,
//! fail too. More runs, whose outcome a rule gives, let reads and writes fail, read the longest input, make a text
//! anew, and judge each report; and a session does one command by its own call. The last line counts, and the exit
//! status is 0 only where nothing failed.
#![tactic(auto)]

mod session;

use crate::session::try_session;
use fab_outer::{MemSink, MemSource};
use fab_text::Word;
use fabric_run::run;
use std::alloc::Global;
use std::io;
use std::process::ExitCode;
use worked_texts::{Tally, TopCall, try_ends, try_files, try_generated, try_limit, try_reports};

// The program's own top call.
struct Top;

impl TopCall for Top {
    fn run(alloc: Global, words: &[Word], source: &mut MemSource, sink: &mut MemSink) -> u8 {
        run(alloc, words, source, sink).end().number()
    }
}

fn main(rt: HostRuntime) -> ExitCode {
    match try_all(&rt) {
        Ok(tally) if tally.failed == 0 => ExitCode::SUCCESS,
        Ok(_) => ExitCode::from(1),
        Err(e) => {
            let _ = eprintln!(rt; "worked_runs: {e}");
            ExitCode::from(2)
        }
    }
}

// Runs all that there is, and prints how it went.
fn try_all(rt: &HostRuntime) -> io::Result<Tally> {
    let mut tally = Tally::new();
    try_files::<Top>(rt, &mut tally)?;
    try_ends::<Top>(rt, &mut tally)?;
    try_limit::<Top>(rt, &mut tally)?;
    try_generated(rt, &mut tally)?;
    try_reports::<Top>(rt, &mut tally)?;
    try_session(rt, &mut tally)?;
    println!(rt; "{} passed, {} failed", tally.passed, tally.failed)?;
    Ok(tally)
}
