//! Lines of `poll` and `tokens`: messages that came, and where tokens are.

ghost use Rattle.std.specs.Prelude.{◌≡◌, ◌∷◌, [], codes, IfOk, MatchOption, None, option_map};
ghost use Rattle.net_defs.specs.Network.{empty_network};
ghost use Rattle.fab_text.specs.Line.{words_of};
ghost use Rattle.line_table.specs.declared.kind.LineKind.TheVariants.{CallSent, CallNothing, CallRefused};
ghost use Rattle.line_table.specs.Form.{Number, HostAt};
ghost use Rattle.report_lines.specs.Lines.{first_said};
ghost use Rattle.report_lines.specs.Meaning.{call_kinds, tokens_line};
ghost use Rattle.report_lines.specs.Reading.{both_said, call_rest, received_said, tokens_said};

use crate::bytes::read_bytes;
use crate::calls::refused;
use crate::places::read_both;
use crate::word::{host, is_same, small, value};
use crate::{ReceivedLine, ReportLine, TokensLine};
use fab_text::Words;
use port_graph::Fabric;
use port_ledgers::PortName;
use run_defs::ClientCall;
use std::alloc::{AllocError, Global};

// The greatest port of a host.
const MAX_PORT: u8 = 7;

// The greatest priority.
const MAX_PRIO: u8 = 1;

/// `H P received ..`, `H P sent token T`, `H P nothing`, or a refusal, after the word `poll`.
pub(crate) fn polled(
    alloc: Global,
    fabric: &Fabric,
    args: Words,
) -> Result<Option<ReportLine>, AllocError>
    ensures { IfOk result (λ r. r ≡ first_said fabric.now (call_kinds ClientCall.Poll)
        (codes "poll" ∷ words_of args.entry)) }
{
    match polled_port(fabric, args) {
        Some((port, left)) => polled_at(alloc, fabric, port, left),
        None => Ok(None),
    }
}

// The port, and the words that are left.
fn polled_port<'a>(fabric: &Fabric, mut args: Words<'a>) -> Option<(PortName, Words<'a>)>
    ensures { MatchOption result
        (first_said fabric.now (call_kinds ClientCall.Poll) (codes "poll" ∷ words_of args.entry) ≡ None)
        (λ o. first_said fabric.now (call_kinds ClientCall.Poll) (codes "poll" ∷ words_of args.entry)
        ≡ call_rest fabric.now ClientCall.Poll o.0 (call_kinds ClientCall.Poll) 3 (words_of o.1)) }
{
    let host = host(fabric, args.next_word()?)?;
    let port = small(args.next_word()?, MAX_PORT)?;
    Some((PortName { host, port }, args))
}

// The same after the port.
fn polled_at(
    alloc: Global,
    fabric: &Fabric,
    port: PortName,
    mut args: Words,
) -> Result<Option<ReportLine>, AllocError>
    ensures { IfOk result (λ r. r ≡ call_rest fabric.now ClientCall.Poll port (call_kinds ClientCall.Poll) 3
        (words_of args.entry)) }
{
    match args.next_word() {
        Some(word) if is_same(word, b"received".as_slice()) => received(alloc, fabric, port, args),
        Some(word) => Ok(polled_other(port, word, args)),
        None => Ok(None),
    }
}

// What is polled beside messages.
fn polled_other(port: PortName, word: &[u8], mut args: Words) -> Option<ReportLine>
    ensures { result ≡ call_rest empty_network ClientCall.Poll port (CallSent ∷ CallNothing ∷ CallRefused ∷ []) 3
        (word.now ∷ words_of args.entry) }
{
    if is_same(word, b"sent".as_slice()) {
        return returned(port, args);
    }
    if is_same(word, b"refused".as_slice()) {
        return refused(ClientCall::Poll, port, args);
    }
    if !is_same(word, b"nothing".as_slice()) {
        return None;
    }
    match args.next_word() {
        None => Some(ReportLine::NothingCame(port)),
        Some(_) => None,
    }
}

// `token T`, after the word `sent`
fn returned(port: PortName, mut args: Words) -> Option<ReportLine>
    ensures { result ≡ call_rest empty_network ClientCall.Poll port (CallSent ∷ []) 4 (words_of args.entry) }
{
    if !is_same(args.next_word()?, b"token".as_slice()) {
        return None;
    }
    let token = value(args.next_word()?)?;
    match args.next_word() {
        None => Some(ReportLine::Returned { port, token }),
        Some(_) => None,
    }
}

// `token T from A SPORT prio P len L bytes HEX`, after the word `received`
fn received(
    alloc: Global,
    fabric: &Fabric,
    port: PortName,
    args: Words,
) -> Result<Option<ReportLine>, AllocError>
    ensures { IfOk result (λ r. r ≡ received_said fabric.now port 4 [] (words_of args.entry)) }
{
    match origin(fabric, port, args) {
        Some((origin, left)) => came_from(alloc, port, origin, left),
        None => Ok(None),
    }
}

// `token T from A`: the token, the sending host, and the words that are left
fn origin<'a>(
    fabric: &Fabric,
    port: PortName,
    mut args: Words<'a>,
) -> Option<((u64, u16), Words<'a>)>
    ensures { MatchOption result (received_said fabric.now port 4 [] (words_of args.entry) ≡ None)
        (λ o. received_said fabric.now port 4 [] (words_of args.entry)
        ≡ received_said empty_network port 8 (Number o.0.0 ∷ HostAt o.0.1 ∷ []) (words_of o.1)) }
{
    if !is_same(args.next_word()?, b"token".as_slice()) {
        return None;
    }
    let token = value(args.next_word()?)?;
    if !is_same(args.next_word()?, b"from".as_slice()) {
        return None;
    }
    let from = host(fabric, args.next_word()?)?;
    Some(((token, from), args))
}

// `SPORT prio P len L bytes HEX`, with the token and the sending host
fn came_from(
    alloc: Global,
    port: PortName,
    origin: (u64, u16),
    args: Words,
) -> Result<Option<ReportLine>, AllocError>
    ensures { IfOk result (λ r. r
        ≡ received_said empty_network port 8 (Number origin.0 ∷ HostAt origin.1 ∷ []) (words_of args.entry)) }
{
    match sent(port, origin, args) {
        Some((sent, left)) => with_body(alloc, port, origin, sent, left),
        None => Ok(None),
    }
}

// `SPORT prio P len L bytes`: the sending port, the priority, the length, and the words that are left
fn sent<'a>(
    port: PortName,
    origin: (u64, u16),
    mut args: Words<'a>,
) -> Option<((u8, u8, u64), Words<'a>)>
    ensures { MatchOption result
        (received_said empty_network port 8 (Number origin.0 ∷ HostAt origin.1 ∷ []) (words_of args.entry) ≡ None)
        (λ o. received_said empty_network port 8 (Number origin.0 ∷ HostAt origin.1 ∷ []) (words_of args.entry)
        ≡ received_said empty_network port 14 (Number origin.0 ∷ HostAt origin.1 ∷ Number o.0.0 ∷ Number o.0.1
        ∷ Number o.0.2 ∷ []) (words_of o.1)) }
{
    let sport = small(args.next_word()?, MAX_PORT)?;
    if !is_same(args.next_word()?, b"prio".as_slice()) {
        return None;
    }
    let prio = small(args.next_word()?, MAX_PRIO)?;
    if !is_same(args.next_word()?, b"len".as_slice()) {
        return None;
    }
    let len = value(args.next_word()?)?;
    if !is_same(args.next_word()?, b"bytes".as_slice()) {
        return None;
    }
    Some(((sport, prio, len), args))
}

// `HEX`, with what was read before
fn with_body(
    alloc: Global,
    port: PortName,
    origin: (u64, u16),
    sent: (u8, u8, u64),
    mut args: Words,
) -> Result<Option<ReportLine>, AllocError>
    ensures { IfOk result (λ r. r
        ≡ received_said empty_network port 14 (Number origin.0 ∷ HostAt origin.1 ∷ Number sent.0 ∷ Number sent.1
        ∷ Number sent.2 ∷ []) (words_of args.entry)) }
{
    let Some(hex) = args.next_word() else {
        return Ok(None);
    };
    let Some(body) = read_bytes(alloc, hex)? else {
        return Ok(None);
    };
    let (sport, prio, len) = sent;
    let (token, from) = origin;
    match args.next_word() {
        None => Ok(Some(ReportLine::Received(ReceivedLine {
            port,
            token,
            from,
            sport,
            prio,
            len,
            body,
        }))),
        Some(_) => Ok(None),
    }
}

/// `H P send T=PLACE .. recv T=PLACE ..`, or a refusal, after the word `tokens`.
pub(crate) fn tokens(
    alloc: Global,
    fabric: &Fabric,
    args: Words,
) -> Result<Option<ReportLine>, AllocError>
    ensures { IfOk result (λ r. r ≡ first_said fabric.now (call_kinds ClientCall.Tokens)
        (codes "tokens" ∷ words_of args.entry)) }
{
    match shown_port(fabric, args) {
        Some((port, left)) => tokens_at(alloc, fabric, port, left),
        None => Ok(None),
    }
}

// The port, and the words that are left.
fn shown_port<'a>(fabric: &Fabric, mut args: Words<'a>) -> Option<(PortName, Words<'a>)>
    ensures { MatchOption result
        (first_said fabric.now (call_kinds ClientCall.Tokens) (codes "tokens" ∷ words_of args.entry) ≡ None)
        (λ o. first_said fabric.now (call_kinds ClientCall.Tokens) (codes "tokens" ∷ words_of args.entry)
        ≡ tokens_said fabric.now o.0 (words_of o.1)) }
{
    let host = host(fabric, args.next_word()?)?;
    let port = small(args.next_word()?, MAX_PORT)?;
    Some((PortName { host, port }, args))
}

// The same after the port.
fn tokens_at(
    alloc: Global,
    fabric: &Fabric,
    port: PortName,
    mut args: Words,
) -> Result<Option<ReportLine>, AllocError>
    ensures { IfOk result (λ r. r ≡ tokens_said fabric.now port (words_of args.entry)) }
{
    match args.next_word() {
        Some(word) if is_same(word, b"send".as_slice()) => shown(alloc, port, args),
        Some(word) if is_same(word, b"refused".as_slice()) => {
            Ok(refused(ClientCall::Tokens, port, args))
        }
        _ => Ok(None),
    }
}

// The tokens of a port.
fn shown(alloc: Global, port: PortName, args: Words) -> Result<Option<ReportLine>, AllocError>
    ensures { IfOk result (λ r. r ≡ option_map (tokens_line port) (both_said (words_of args.entry))) }
{
    match read_both(alloc, args)? {
        Some((sends, recvs)) => Ok(Some(ReportLine::Tokens(TokensLine { port, sends, recvs }))),
        None => Ok(None),
    }
}
