//! The lines of the fabric: hosts, switches and cables.

ghost use Rattle.std.specs.Prelude.{◌≡◌, ◌≤◌, ◌++◌, OnOk, map};
ghost use Rattle.fabric_gen.specs.Text.{below, lines_text, fabric_lines, host_words, switch_words, chain_words};
ghost use Rattle.fabric_gen.specs.Text.{link_words};

use crate::names::{host, switch};
use line_writing::{Word, append_line};
use std::alloc::AllocError;

/// The fabric of `n` hosts, with the line that ends it.
pub(crate) fn append_fabric(text: &mut Vec<u8>, n: u8) -> Result<(), AllocError>
    requires { 1 ≤ n }
    ensures { OnOk result (text.new.items ≡ text.old.items ++ lines_text (fabric_lines n)) }
{
    append_hosts(text, n)?;
    append_switches(text, n)?;
    append_chain(text, n - 1)?;
    append_links(text, n)?;
    append_line(text, &[Word::Text(b"script")])
}

// `host hI`, for so many hosts.
#[tactic(auto, using(crate::proofs::Lines::line_more))]
fn append_hosts(text: &mut Vec<u8>, n: u8) -> Result<(), AllocError>
    ensures { OnOk result (text.new.items ≡ text.old.items ++ lines_text (map host_words (below n))) }
{
    for i in 0..n {
        append_line(text, &[Word::Text(b"host"), host(i)])?;
    }
    Ok(())
}

// `switch sI 8`, for so many switches.
#[tactic(auto, using(crate::proofs::Lines::line_more))]
fn append_switches(text: &mut Vec<u8>, n: u8) -> Result<(), AllocError>
    ensures { OnOk result (text.new.items ≡ text.old.items ++ lines_text (map switch_words (below n))) }
{
    for i in 0..n {
        append_line(text, &[Word::Text(b"switch"), switch(i), Word::Text(b"8")])?;
    }
    Ok(())
}

// So many cables from a switch to the next.
#[tactic(auto, using(crate::proofs::Lines::line_more))]
fn append_chain(text: &mut Vec<u8>, cables: u8) -> Result<(), AllocError>
    ensures { OnOk result (text.new.items ≡ text.old.items ++ lines_text (map chain_words (below cables))) }
{
    for i in 0..cables {
        append_line(
            text,
            &[
                Word::Text(b"cable"),
                switch(i),
                Word::Text(b"0"),
                switch(i + 1),
                Word::Text(b"1"),
            ],
        )?;
    }
    Ok(())
}

// The cable of each host to its switch.
#[tactic(auto, using(crate::proofs::Lines::line_more))]
fn append_links(text: &mut Vec<u8>, n: u8) -> Result<(), AllocError>
    ensures { OnOk result (text.new.items ≡ text.old.items ++ lines_text (map link_words (below n))) }
{
    for i in 0..n {
        append_line(
            text,
            &[
                Word::Text(b"cable"),
                host(i),
                Word::Text(b"0"),
                switch(i),
                Word::Text(b"2"),
            ],
        )?;
    }
    Ok(())
}
