//! The lines after the sends: planned faults, the settle, and what is polled.

ghost use Rattle.std.specs.Prelude.{◌≡◌, ◌++◌, OnOk, flat_map};
ghost use Rattle.fabric_gen.specs.Text.{below, lines_text, closing_lines, poll_words, polls_of, settle_lines};
ghost use Rattle.fab_text.specs.Written.{line_text};

use crate::names::host;
use line_writing::{Word, append_line};
use std::alloc::AllocError;

// The messages that come to a host.
const POLLS: u8 = 4;

/// The messages of `n` hosts come and are taken, and the script ends.
pub(crate) fn append_closing(text: &mut Vec<u8>, n: u8) -> Result<(), AllocError>
    ensures { OnOk result (text.new.items ≡ text.old.items ++ lines_text (closing_lines n)) }
{
    append_settle(text)?;
    append_polls(text, n)?;
    append_line(text, &[Word::Text(b"end")])
}

// A loss, a hold and a repeat, and then the settle.
fn append_settle(text: &mut Vec<u8>) -> Result<(), AllocError>
    ensures { OnOk result (text.new.items ≡ text.old.items ++ lines_text settle_lines) }
{
    let plan = Word::Text(b"plan");
    append_line(text, &[plan, Word::Text(b"lose"), Word::Text(b"1")])?;
    append_line(text, &[plan, Word::Text(b"hold"), Word::Text(b"2")])?;
    append_line(text, &[plan, Word::Text(b"repeat"), Word::Text(b"3")])?;
    append_line(text, &[Word::Text(b"settle")])
}

// What each host takes.
#[tactic(auto, using(crate::proofs::Lines::lines_more))]
fn append_polls(text: &mut Vec<u8>, n: u8) -> Result<(), AllocError>
    ensures { OnOk result (text.new.items ≡ text.old.items ++ lines_text (flat_map polls_of (below n))) }
{
    for i in 0..n {
        append_polls_of(text, i)?;
    }
    Ok(())
}

// What a host takes: a line for each message that comes to it.
fn append_polls_of(text: &mut Vec<u8>, i: u8) -> Result<(), AllocError>
    ensures { OnOk result (text.new.items ≡ text.old.items ++ lines_text (polls_of i)) }
{
    for poll in 0..POLLS {
        append_poll(text, i)?;
    }
    Ok(())
}

// `poll hI 1`
fn append_poll(text: &mut Vec<u8>, i: u8) -> Result<(), AllocError>
    ensures { OnOk result (text.new.items ≡ text.old.items ++ line_text (poll_words i)) }
{
    append_line(text, &[Word::Text(b"poll"), host(i), Word::Text(b"1")])
}
