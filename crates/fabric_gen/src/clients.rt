//! The lines that open ports and send messages.

ghost use Rattle.std.specs.Prelude.{◌≡◌, ◌≤◌, ◌<◌, ◌++◌, ◌∷◌, [], OnOk, codes, decimal, flat_map, unwrap_or};
ghost use Rattle.fab_text.specs.Written.{line_text};
ghost use Rattle.gm_defs.specs.Token.{size_for_length as least_size};
ghost use Rattle.fabric_gen.specs.Text.{below, host_name, lines_text, client_lines, open_lines, messages_of};
ghost use Rattle.fabric_gen.specs.Text.{message_lines};

use crate::message::{message_length, message_seed, peer};
use crate::names::host;
use gm_tokens::size_for_length;
use line_writing::{Word, append_line};
use std::alloc::AllocError;

// The messages of a host.
const MESSAGES: u8 = 4;

/// The ports of `n` hosts, and four messages of each.
pub(crate) fn append_clients(text: &mut Vec<u8>, n: u8, seed: u32) -> Result<(), AllocError>
    requires some { 2 ≤ n }
    requires few { n ≤ 24 }
    requires seed { seed ≤ 1000000 }
    ensures { OnOk result (text.new.items ≡ text.old.items ++ lines_text (client_lines n seed)) }
{
    append_opens(text, n)?;
    append_messages(text, n, seed)
}

// The ports of each host.
#[tactic(auto, using(crate::proofs::Lines::lines_more))]
fn append_opens(text: &mut Vec<u8>, n: u8) -> Result<(), AllocError>
    ensures { OnOk result (text.new.items ≡ text.old.items ++ lines_text (flat_map open_lines (below n))) }
{
    for i in 0..n {
        append_open(text, i)?;
    }
    Ok(())
}

// A host's port 0 for four sends, and its port 1 for four messages that come.
fn append_open(text: &mut Vec<u8>, i: u8) -> Result<(), AllocError>
    ensures { OnOk result (text.new.items ≡ text.old.items ++ lines_text (open_lines i)) }
{
    let (open, host) = (Word::Text(b"open"), host(i));
    let (none, one, four) = (Word::Text(b"0"), Word::Text(b"1"), Word::Text(b"4"));
    append_line(text, &[open, host, none, four, none])?;
    append_line(text, &[open, host, one, none, four])
}

// The messages of each host.
#[tactic(auto, using(crate::proofs::Lines::lines_more))]
fn append_messages(text: &mut Vec<u8>, n: u8, seed: u32) -> Result<(), AllocError>
    requires some { 2 ≤ n }
    requires few { n ≤ 24 }
    requires seed { seed ≤ 1000000 }
    ensures { OnOk result (text.new.items ≡ text.old.items ++ lines_text (flat_map (messages_of n seed) (below n))) }
{
    for i in 0..n {
        append_messages_of(text, n, seed, i)?;
    }
    Ok(())
}

// The messages of a host.
#[tactic(auto, using(crate::proofs::Lines::lines_more))]
fn append_messages_of(text: &mut Vec<u8>, n: u8, seed: u32, i: u8) -> Result<(), AllocError>
    requires some { 2 ≤ n }
    requires few { n ≤ 24 }
    requires seed { seed ≤ 1000000 }
    requires host { i < n }
    ensures { OnOk result (text.new.items ≡ text.old.items ++ lines_text (messages_of n seed i)) }
{
    for m in 0..MESSAGES {
        append_message(text, n, seed, i, m)?;
    }
    Ok(())
}

// A buffer for a message at the host that it goes to, and its send.
fn append_message(text: &mut Vec<u8>, n: u8, seed: u32, i: u8, m: u8) -> Result<(), AllocError>
    requires some { 2 ≤ n }
    requires few { n ≤ 24 }
    requires seed { seed ≤ 1000000 }
    requires host { i < n }
    requires number { m < 4 }
    ensures { OnOk result (text.new.items ≡ text.old.items ++ lines_text (message_lines n seed i m)) }
{
    let to = peer(n, seed, i, m);
    let prio = m % 2;
    let len = message_length(seed, i, m);
    append_provide(text, to, len, prio)?;
    append_send(text, i, to, prio, len, message_seed(seed, i, m))
}

// `provide hJ 1 SIZE PRIO`, for a message of this length.
fn append_provide(text: &mut Vec<u8>, to: u8, len: u32, prio: u8) -> Result<(), AllocError>
    ensures { OnOk result (text.new.items ≡ text.old.items
        ++ line_text (codes "provide" ∷ host_name to ∷ codes "1" ∷ decimal (unwrap_or (least_size len) 0)
        ∷ decimal prio ∷ [])) }
{
    let size = Word::Number(u64::from(size_for_length(len).unwrap_or(0)));
    let prio = Word::Number(u64::from(prio));
    append_line(
        text,
        &[
            Word::Text(b"provide"),
            host(to),
            Word::Text(b"1"),
            size,
            prio,
        ],
    )
}

// `send hI 0 hJ 1 PRIO LEN SEED`
fn append_send(
    text: &mut Vec<u8>,
    i: u8,
    to: u8,
    prio: u8,
    len: u32,
    bytes: u32,
) -> Result<(), AllocError>
    ensures { OnOk result (text.new.items ≡ text.old.items
        ++ line_text (codes "send" ∷ host_name i ∷ codes "0" ∷ host_name to ∷ codes "1" ∷ decimal prio ∷ decimal len
        ∷ decimal bytes ∷ [])) }
{
    append_line(
        text,
        &[
            Word::Text(b"send"),
            host(i),
            Word::Text(b"0"),
            host(to),
            Word::Text(b"1"),
            Word::Number(u64::from(prio)),
            Word::Number(u64::from(len)),
            Word::Number(u64::from(bytes)),
        ],
    )
}
