//! The program's top call.

ghost use Rattle.myrifab.specs.Top.{TopEnds};

use fab_outer::{Sink, Source};
use fab_text::Word;
use fabric_run::run;
use program_edge::TopCall;
use std::alloc::Global;

/// `run` of `fabric_run`, whose answer's number is the exit status.
pub(crate) struct Top;

impl TopCall for Top {
    ghost ends = { TopEnds };

    fn run<S: Source, K: Sink>(alloc: Global, words: &[Word], input: &mut S, out: &mut K) -> u8 {
        run(alloc, words, input, out).end().number()
    }
}
