//! The program: it hands the words of its command line, standard input and standard output to its top call, and ends
//! with the exit status that comes back.
//!
//! It prints nothing itself. Statuses: 0 done, 2 usage, 3 the text is refused, 4 a read failed, 5 a write failed, 6
//! out of memory, 7 the input is too long, 8 the system refused the words of the command line.
//!
//! | module | has |
//! |---|---|
//! | `top` | the top call: `run` of `fabric_run`, and the number of its answer |
#![tactic(auto)]

mod top;

use crate::top::Top;
use fab_outer::{StdSink, StdSource};
use program_edge::{KeptSink, run_kept, start_status, words_of};
use std::process::ExitCode;
use std::{env, io};

fn main(rt: HostRuntime) -> ExitCode {
    match ended(&rt) {
        Ok(status) => ExitCode::from(status),
        Err(e) => ExitCode::from(start_status(&e)),
    }
}

// The exit status of the run of the command line's words, which stand after the program's name.
fn ended(rt: &HostRuntime) -> io::Result<u8> {
    let words = words_of(rt.alloc(), env::args(rt)?.skip(1))?;
    let mut input = StdSource::new(rt.stdin());
    let mut out = KeptSink::new(rt.alloc(), StdSink::new(rt.stdout()))?;
    Ok(run_kept::<Top, _, _>(rt.alloc(), &words, &mut input, &mut out))
}
