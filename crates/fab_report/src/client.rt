//! What a client's call was answered.

ghost use Rattle.std.specs.Prelude.{◌≡◌, ◌≤◌, ◌+◌, ◌++◌, ◌∷◌, [], OnOk, codes, decimal, length, take};
ghost use Rattle.fab_text.specs.Written.{spaced};
ghost use Rattle.run_defs.specs.LineRows.{call_word};
ghost use Rattle.net_defs.specs.Network.{Network};
ghost use Rattle.run_defs.specs.LineText.{words_in};
ghost use Rattle.line_table.specs.Texts.{hex_text};
ghost use Rattle.run_defs.specs.declared.line.Line.TheVariants.{Client};
ghost use Rattle.world_defs.specs.declared.effect.Said.TheVariants.{Received, Refused};
ghost use Rattle.fab_report.specs.There.{IsHost, IsSaidOf};
ghost use Rattle.fab_report.specs.Words.{behind, few_words, more_words, said_words};

use crate::room::{make_room, put, put_number, put_numbered};
use crate::words::bytes_word;
use line_writing::Word::{Number, Text};
use line_writing::append_behind;
use port_graph::{Fabric, Vertex};
use run_defs::ClientCall;
use std::alloc::AllocError;
use world_defs::{ClientCause, Said};

// The most bytes of a call and of an answer of few words, but the host's name: letters and spaces, and two numbers.
const CALL_ROOM: usize = 101;

/// The call's word, host and port, and what it was answered.
pub(crate) fn client_line(
    text: &mut Vec<u8>,
    f: &Fabric,
    call: ClientCall,
    host: u16,
    port: u8,
    said: &Said,
) -> Result<(), AllocError>
    requires host { IsHost f.now host }
    requires sender { IsSaidOf f.now said.now }
    ensures { OnOk result (text.new.items ≡ text.old.items
        ++ spaced (words_in f.now (Client call host port said.now))) }
{
    let name = f.name_of(Vertex::Host(host));
    let begin = make_room(text, CALL_ROOM + name.len())?;
    let end = put_call(text, begin, call_of(call), name, port, said);
    text.truncate(end);
    append_said(text, f, said)
}

// Puts the word of a call, the port at which it is made, and an answer of few words at a place: where they end.
fn put_call(room: &mut [u8], at: usize, call: &[u8], name: &[u8], port: u8, said: &Said) -> usize
    requires call { length call.now ≤ 7 }
    requires room { at + length name.now + CALL_ROOM ≤ length room.old }
    ensures within { result ≤ length room.new }
    ensures size { length room.new ≡ length room.old }
    ensures bytes { take result room.new ≡ take at room.old ++ (spaced (call.now ∷ name.now ∷ decimal port ∷ [])
        ++ behind (few_words said.now)) }
{
    let end = put_at_port(room, at, call, name, port);
    put_said(room, end, said)
}

// Puts the word of a call and the port at which it is made at a place: where they end.
#[inline(always)]
fn put_at_port(room: &mut [u8], at: usize, call: &[u8], name: &[u8], port: u8) -> usize
    requires { at + length call.now + length name.now + 42 ≤ length room.old }
    ensures most { result ≤ at + length call.now + length name.now + 42 }
    ensures size { length room.new ≡ length room.old }
    ensures bytes { take result room.new ≡ take at room.old ++ spaced (call.now ∷ name.now ∷ decimal port ∷ []) }
{
    let end = put(room, at, call);
    let begin = put(room, end, b" ");
    let end = put(room, begin, name);
    let begin = put(room, end, b" ");
    put_number(room, begin, u32::from(port))
}

// The word of a call.
fn call_of(call: ClientCall) -> &'static [u8]
    ensures word { result.now ≡ call_word call }
    ensures short { length result.now ≤ 7 }
{
    match call {
        ClientCall::Begin => b"open",
        ClientCall::Close => b"close",
        ClientCall::Provide => b"provide",
        ClientCall::Send => b"send",
        ClientCall::Poll => b"poll",
        ClientCall::Tokens => b"tokens",
    }
}

// Puts what the call was answered, where that is few words: where it ends.
#[inline(always)]
fn put_said(room: &mut [u8], at: usize, said: &Said) -> usize
    requires { at + 52 ≤ length room.old }
    ensures within { result ≤ length room.new }
    ensures size { length room.new ≡ length room.old }
    ensures bytes { take result room.new ≡ take at room.old ++ behind (few_words said.now) }
{
    match said {
        Said::Done => put(room, at, b" done"),
        Said::Count(count) => put_numbered(room, at, b" done", *count),
        Said::Token(token) => put_numbered(room, at, b" token", u32::from(*token)),
        Said::Sent(token) => put_numbered(room, at, b" sent token", u32::from(*token)),
        Said::Nothing => put(room, at, b" nothing"),
        Said::Received { .. } | Said::Refused(_) => at,
    }
}

// What the call was answered, after other words, where that isn't put with them: a message that was received, or why
// the call is refused.
fn append_said(text: &mut Vec<u8>, f: &Fabric, said: &Said) -> Result<(), AllocError>
    requires { IsSaidOf f.now said.now }
    ensures { OnOk result (text.new.items ≡ text.old.items ++ behind (more_words f.now said.now)) }
{
    match said {
        Said::Received {
            token,
            from,
            sport,
            prio,
            body,
        } => append_received(text, f, *token, *from, *sport, *prio, body.bytes()),
        Said::Refused(cause) => append_refused(text, *cause),
        _ => Ok(()),
    }
}

// `received token T from A Q prio R len L bytes HEX`
fn append_received(
    text: &mut Vec<u8>,
    f: &Fabric,
    token: u16,
    from: u16,
    sport: u8,
    prio: u8,
    body: &[u8],
) -> Result<(), AllocError>
    requires { IsHost f.now from }
    ensures { OnOk result (text.new.items ≡ text.old.items
        ++ behind (said_words f.now (Received token from sport prio body.now))) }
{
    append_behind(
        text,
        &[
            Text(b"received"),
            Text(b"token"),
            Number(u64::from(token)),
            Text(b"from"),
            Text(f.name_of(Vertex::Host(from))),
            Number(u64::from(sport)),
        ],
    )?;
    append_body(text, prio, body)
}

// `prio R len L bytes HEX`
fn append_body(text: &mut Vec<u8>, prio: u8, body: &[u8]) -> Result<(), AllocError>
    ensures { OnOk result (text.new.items ≡ text.old.items
        ++ behind (codes "prio" ∷ decimal prio ∷ codes "len" ∷ decimal (length body.now) ∷ codes "bytes"
        ∷ hex_text body.now ∷ [])) }
{
    append_behind(
        text,
        &[
            Text(b"prio"),
            Number(u64::from(prio)),
            Text(b"len"),
            Number(body.len() as u64),
            Text(b"bytes"),
            bytes_word(body),
        ],
    )
}

// Why the call is refused, after other words.
fn append_refused(text: &mut Vec<u8>, cause: ClientCause) -> Result<(), AllocError>
    ensures { OnOk result ((n : Network) → text.new.items ≡ text.old.items ++ behind (said_words n (Refused cause))) }
{
    let refused = Text(b"refused");
    match cause {
        ClientCause::Already => append_behind(text, &[refused, Text(b"already")]),
        ClientCause::NotOpen => append_behind(text, &[refused, Text(b"notopen")]),
        ClientCause::NoToken => append_behind(text, &[refused, Text(b"notoken")]),
        ClientCause::TooLong => append_behind(text, &[refused, Text(b"toolong")]),
        ClientCause::NoRoute => append_behind(text, &[refused, Text(b"noroute")]),
        ClientCause::Spent => append_behind(text, &[refused, Text(b"spent")]),
        ClientCause::BadSize => append_behind(text, &[refused, Text(b"badsize")]),
        ClientCause::Busy(sends) => {
            append_behind(text, &[refused, Text(b"busy"), Number(u64::from(sends))])
        }
        ClientCause::Unread(events) => {
            append_behind(text, &[refused, Text(b"unread"), Number(u64::from(events))])
        }
        ClientCause::Filling(tokens) => {
            append_behind(
                text,
                &[refused, Text(b"filling"), Number(u64::from(tokens))],
            )
        }
    }
}
