//! The words, the call and the exit status.

ghost use Rattle.std.specs.Prelude.{◌≡◌, ℕ, List, map, IfOk, string_bytes};
ghost use Rattle.std.specs.Iterator.{Drains, IsFinite};
ghost use Rattle.std.specs.IoError.{error_kind};
ghost use Rattle.program_edge.specs.Edge.{Moment, ProgramEnds, kept_taken};

use crate::kept::KeptSink;
use fab_outer::{Sink, Source};
use fab_text::Word;
use std::alloc::{AllocError, Global};
use std::io::{Error, ErrorKind};

// The exit status where the last write failed.
const WRITE_FAULT: u8 = 5;

/// What a program does with the words of its command line, between a source and a sink.
pub trait TopCall {
    /// How a call may end: by its words, by what it is that the source and the sink are as they were, by what they
    /// show before and after, and by the exit status.
    ghost ends: { List (List ℕ) → Type 0 → Type 0 → Moment → Moment → ℕ → Type 0 };

    /// Does what the words ask for, and answers the exit status.
    fn run<S: Source, K: Sink>(alloc: Global, words: &[Word], input: &mut S, out: &mut K) -> u8
        ensures { ends words.now (input.new ≡ input.old) (out.new ≡ out.old)
            record {
              left = S.left input.old;
              read_faults = S.faults input.old;
              taken = K.taken out.old;
              write_faults = K.faults out.old;
            }
            record {
              left = S.left input.new;
              read_faults = S.faults input.new;
              taken = K.taken out.new;
              write_faults = K.faults out.new;
            }
            result };
}

/// Does what the words ask for over a sink that keeps, writes what was kept, and answers the exit status: that of the
/// call, or 5 where the last write failed.
pub fn run_kept<T: TopCall, S: Source, K: Sink>(
    alloc: Global,
    words: &[Word],
    input: &mut S,
    out: &mut KeptSink<K>,
) -> u8
    ensures { ProgramEnds
        (λ middle number. T.ends words.now (input.new ≡ input.old) (middle ≡ out.old)
        record {
          left = S.left input.old;
          read_faults = S.faults input.old;
          taken = kept_taken K.taken out.old;
          write_faults = K.faults out.old.to;
        }
        record {
          left = S.left input.new;
          read_faults = S.faults input.new;
          taken = kept_taken K.taken middle;
          write_faults = K.faults middle.to;
        }
        number)
        K.taken K.faults out.new result }
{
    let number = T::run(alloc, words, input, out);
    match out.finish() {
        Ok(_) => number,
        Err(_) => WRITE_FAULT,
    }
}

/// The words of a command line, in order.
pub fn words_of<I: Iterator<Item = String> + Drop>(
    alloc: Global,
    texts: I,
) -> Result<Vec<Word>, AllocError>
    requires can { I.can_next texts }
    requires ends { IsFinite (I.remaining texts) }
    ensures { IfOk result (λ words. (all : _) × Drains I.next_gives texts all
        × (words.items ≡ map string_bytes all)) }
{
    let mut words = Vec::new(alloc);
    for text in texts {
        words.push(Word::new(text.into_bytes()))?;
    }
    Ok(words)
}

/// The exit status where the program couldn't begin: 6 for want of memory, 8 where the system refused.
pub fn start_status(error: &Error) -> u8
    ensures memory { error_kind error.now ≡ ErrorKind.OutOfMemory → result ≡ 6 }
    ensures refused { ¬ (error_kind error.now ≡ ErrorKind.OutOfMemory) → result ≡ 8 }
{
    if error.kind() == ErrorKind::OutOfMemory {
        6
    } else {
        8
    }
}
