//! Lines of client calls: a refusal or an answer.

ghost use Rattle.std.specs.Prelude.{◌≡◌, ◌∷◌, [], codes, map};
ghost use Rattle.net_defs.specs.Network.{empty_network};
ghost use Rattle.fab_text.specs.Line.{words_of};
ghost use Rattle.line_table.specs.declared.kind.LineKind.TheVariants.{CallDone, CallCounted, CallToken, CallRefused};
ghost use Rattle.line_table.specs.declared.kind.LineKind.TheVariants.{CallUnfinished};
ghost use Rattle.report_lines.specs.Lines.{first_said};
ghost use Rattle.report_lines.specs.Meaning.{causes_of, refused_for, token_of};
ghost use Rattle.report_lines.specs.Reading.{call_rest};

use crate::ReportLine;
use crate::word::{host, is_among, is_number, is_same, small, value};
use fab_text::{Words, words};
use port_graph::Fabric;
use port_ledgers::PortName;
use run_defs::ClientCall;

// The greatest port of a host.
const MAX_PORT: u8 = 7;

// The causes for which calls may be refused, where nothing is counted.
static CAUSES: [&[u8]; 7] = [
    b"already", b"notopen", b"notoken", b"toolong", b"noroute", b"spent", b"badsize",
];

// The causes that count what is unfinished.
static UNFINISHED: [&[u8]; 3] = [b"busy", b"unread", b"filling"];

static OF_OPEN: [&[u8]; 1] = [b"already"];

static OF_PROVIDE: [&[u8]; 3] = [b"notopen", b"notoken", b"badsize"];

static OF_SEND: [&[u8]; 5] = [b"notopen", b"notoken", b"toolong", b"noroute", b"spent"];

static OF_OTHERS: [&[u8]; 1] = [b"notopen"];

/// `H P done`, or a refusal, after the word `open`.
pub(crate) fn opened(fabric: &Fabric, mut args: Words) -> Option<ReportLine>
    ensures { result ≡ first_said fabric.now (CallDone ∷ CallRefused ∷ []) (codes "open" ∷ words_of args.entry) }
{
    let host = host(fabric, args.next_word()?)?;
    let port = small(args.next_word()?, MAX_PORT)?;
    let port = PortName { host, port };
    let word = args.next_word()?;
    if is_same(word, b"refused".as_slice()) {
        return refused(ClientCall::Begin, port, args);
    }
    if !is_same(word, b"done".as_slice()) {
        return None;
    }
    match args.next_word() {
        None => Some(ReportLine::Opened(port)),
        Some(_) => None,
    }
}

/// `H P done N`, or a refusal, which may count what is unfinished, after the word `close`.
pub(crate) fn closed(fabric: &Fabric, mut args: Words) -> Option<ReportLine>
    ensures { result ≡ first_said fabric.now (CallCounted ∷ CallRefused ∷ CallUnfinished ∷ [])
        (codes "close" ∷ words_of args.entry) }
{
    let host = host(fabric, args.next_word()?)?;
    let port = small(args.next_word()?, MAX_PORT)?;
    let port = PortName { host, port };
    let word = args.next_word()?;
    if is_same(word, b"refused".as_slice()) {
        return not_closed(port, args);
    }
    if !is_same(word, b"done".as_slice()) {
        return None;
    }
    let count = value(args.next_word()?)?;
    match args.next_word() {
        None => Some(ReportLine::Closed { port, count }),
        Some(_) => None,
    }
}

// `CAUSE` or `CAUSE N`, after the word `refused` of a close
fn not_closed(port: PortName, mut args: Words) -> Option<ReportLine>
    ensures { result ≡ call_rest empty_network ClientCall.Close port (CallRefused ∷ CallUnfinished ∷ []) 4
        (words_of args.entry) }
{
    let cause = args.next_word()?;
    if !is_among(&CAUSES, cause) {
        return unfinished(port, cause, args);
    }
    match words(args.rest()).next_word() {
        None => refused_for(ClientCall::Close, port, cause),
        Some(_) => unfinished(port, cause, args),
    }
}

// A cause that counts what is unfinished.
fn unfinished(port: PortName, cause: &[u8], mut args: Words) -> Option<ReportLine>
    ensures { result ≡ call_rest empty_network ClientCall.Close port (CallUnfinished ∷ []) 4
        (cause.now ∷ words_of args.entry) }
{
    if !is_among(&UNFINISHED, cause) {
        return None;
    }
    if !is_number(args.next_word()?) {
        return None;
    }
    let call = ClientCall::Close;
    match args.next_word() {
        None => Some(ReportLine::CallRefused { call, port }),
        Some(_) => None,
    }
}

/// `H P token T`, or a refusal, after the word `provide`.
pub(crate) fn provided(fabric: &Fabric, mut args: Words) -> Option<ReportLine>
    ensures { result ≡ first_said fabric.now (CallToken ∷ CallRefused ∷ []) (codes "provide" ∷ words_of args.entry) }
{
    let host = host(fabric, args.next_word()?)?;
    let port = small(args.next_word()?, MAX_PORT)?;
    took(ClientCall::Provide, PortName { host, port }, args)
}

/// The same after the word `send`.
pub(crate) fn accepted(fabric: &Fabric, mut args: Words) -> Option<ReportLine>
    ensures { result ≡ first_said fabric.now (CallToken ∷ CallRefused ∷ []) (codes "send" ∷ words_of args.entry) }
{
    let host = host(fabric, args.next_word()?)?;
    let port = small(args.next_word()?, MAX_PORT)?;
    took(ClientCall::Send, PortName { host, port }, args)
}

// `token T`, or a refusal.
fn took(call: ClientCall, port: PortName, mut args: Words) -> Option<ReportLine>
    ensures { result ≡ call_rest empty_network call port (CallToken ∷ CallRefused ∷ []) 3 (words_of args.entry) }
{
    let word = args.next_word()?;
    if is_same(word, b"refused".as_slice()) {
        return refused(call, port, args);
    }
    if !is_same(word, b"token".as_slice()) {
        return None;
    }
    let token = value(args.next_word()?)?;
    match args.next_word() {
        None => token_of(call, port, token),
        Some(_) => None,
    }
}

// The number of a token that a call took.
fn token_of(call: ClientCall, port: PortName, token: u64) -> Option<ReportLine>
    ensures { result ≡ token_of call port token }
{
    match call {
        ClientCall::Provide => Some(ReportLine::Provided { port, token }),
        ClientCall::Send => Some(ReportLine::Accepted { port, token }),
        _ => None,
    }
}

/// `CAUSE`, after the word `refused`.
pub(crate) fn refused(call: ClientCall, port: PortName, mut args: Words) -> Option<ReportLine>
    ensures { result ≡ call_rest empty_network call port (CallRefused ∷ []) 4 (words_of args.entry) }
{
    let cause = args.next_word()?;
    if !is_among(&CAUSES, cause) {
        return None;
    }
    match args.next_word() {
        None => refused_for(call, port, cause),
        Some(_) => None,
    }
}

// A refusal, where the call may be refused for this cause.
fn refused_for(call: ClientCall, port: PortName, cause: &[u8]) -> Option<ReportLine>
    ensures { result ≡ refused_for call port cause.now }
{
    if is_among(causes_of(call), cause) {
        Some(ReportLine::CallRefused { call, port })
    } else {
        None
    }
}

// The causes for which a call may be refused, where nothing is counted.
fn causes_of(call: ClientCall) -> &'static [&'static [u8]]
    ensures { map (λ w. w.now) result.now ≡ causes_of call }
{
    match call {
        ClientCall::Begin => &OF_OPEN,
        ClientCall::Provide => &OF_PROVIDE,
        ClientCall::Send => &OF_SEND,
        _ => &OF_OTHERS,
    }
}
