//! Lines of the two hosts that restart: `duo` and one word more, which counts with it.

ghost use Rattle.std.specs.Prelude.{◌≡◌, ◌∷◌, []};
ghost use Rattle.duo_defs.specs.declared.event.DuoEvent.TheVariants.{Deliver};
ghost use Rattle.fab_text.specs.Line.{words_of};
ghost use Rattle.fab_text.specs.Fault.{and_then};
ghost use Rattle.run_defs.specs.Script.{OfNumber, of_end, said_by, duo_meant, duo_send_meant, duo_provide_meant};
ghost use Rattle.run_defs.specs.Script.{duo_kinds, by_second, command_by};
ghost use Rattle.fab_script.specs.Commands.{duo_event};

use crate::counted::{one, three, two};
use crate::leading::after_keyword;
use crate::plain::{one_within, three_within, two_within};
use crate::port_lines::{MAX_LEN, MAX_SIZE};
use crate::values::{byte, number};
use fab_text::{FaultKind, Words, is_keyword};
use port_graph::Fabric;
use run_defs::{Command, DuoEvent};

// The greater number of the two hosts.
const MAX_END: u8 = 1;

// An event that a host alone names.
#[derive(Clone, Copy)]
enum AtEnd {
    Emit,
    Expire,
    Poll,
    Restart,
}

/// `duo`, and what follows it. Long scripts have such lines above all, so it stands in its caller, and the readers of
/// each word stand in it: what they answer isn't moved from one to the other.
#[inline(always)]
pub(crate) fn duo(fabric: &Fabric, args: Words) -> Result<Command, FaultKind>
    ensures { result ≡ by_second fabric.now duo_kinds (words_of args.entry) }
{
    if let Some(left) = after_keyword(&args, b"send") {
        return send(fabric, left);
    }
    if let Some(left) = after_keyword(&args, b"emit") {
        return at_end(fabric, AtEnd::Emit, left);
    }
    if let Some(left) = after_keyword(&args, b"deliver") {
        return deliver(fabric, left);
    }
    if let Some(left) = after_keyword(&args, b"provide") {
        return provide(fabric, left);
    }
    if let Some(left) = after_keyword(&args, b"restart") {
        return at_end(fabric, AtEnd::Restart, left);
    }
    if let Some(left) = after_keyword(&args, b"poll") {
        return at_end(fabric, AtEnd::Poll, left);
    }
    duo_by_word(fabric, args)
}

// The same by the second word, wherever it ends.
#[inline(never)]
fn duo_by_word(fabric: &Fabric, mut args: Words) -> Result<Command, FaultKind>
    ensures { result ≡ by_second fabric.now duo_kinds (words_of args.entry) }
{
    match args.next_word() {
        Some(second) => duo_by(fabric, second, args),
        None => Err(FaultKind::BadWord),
    }
}

// The event that this word says.
fn duo_by(fabric: &Fabric, second: &[u8], args: Words) -> Result<Command, FaultKind>
    ensures { result ≡ command_by fabric.now duo_kinds second.now (words_of args.entry) }
{
    if is_keyword(second, b"send") {
        send(fabric, args)
    } else if is_keyword(second, b"provide") {
        provide(fabric, args)
    } else if is_keyword(second, b"emit") {
        at_end(fabric, AtEnd::Emit, args)
    } else if is_keyword(second, b"deliver") {
        deliver(fabric, args)
    } else if is_keyword(second, b"expire") {
        at_end(fabric, AtEnd::Expire, args)
    } else if is_keyword(second, b"poll") {
        at_end(fabric, AtEnd::Poll, args)
    } else if is_keyword(second, b"restart") {
        at_end(fabric, AtEnd::Restart, args)
    } else {
        Err(FaultKind::BadWord)
    }
}

// `X LEN SEED`
#[inline(always)]
fn send(fabric: &Fabric, args: Words) -> Result<Command, FaultKind>
    ensures { result ≡ and_then (said_by (of_end ∷ OfNumber 0 1000000 ∷ OfNumber 0 255 ∷ []) (words_of args.entry))
        (duo_send_meant fabric.now) }
{
    let plain = three_within(args.rest(), u32::from(MAX_END), MAX_LEN, u32::from(u8::MAX));
    if let Some((x, len, seed)) = plain {
        let (x, seed) = (x as u8, seed as u8);
        return Ok(Command::Duo(DuoEvent::Send { x, len, seed }));
    }
    let Some((x, len, seed)) = three(args) else {
        return Err(FaultKind::BadWord);
    };
    let x = byte(x, 0, MAX_END)?;
    let len = number(len, 0, MAX_LEN)?;
    let seed = byte(seed, 0, u8::MAX)?;
    Ok(Command::Duo(DuoEvent::Send { x, len, seed }))
}

// `X SIZE`
#[inline(always)]
fn provide(fabric: &Fabric, args: Words) -> Result<Command, FaultKind>
    ensures { result ≡ and_then (said_by (of_end ∷ OfNumber 0 31 ∷ []) (words_of args.entry))
        (duo_provide_meant fabric.now) }
{
    if let Some((x, size)) = two_within(args.rest(), u32::from(MAX_END), u32::from(MAX_SIZE)) {
        let (x, size) = (x as u8, size as u8);
        return Ok(Command::Duo(DuoEvent::Provide { x, size }));
    }
    let Some((x, size)) = two(args) else {
        return Err(FaultKind::BadWord);
    };
    let x = byte(x, 0, MAX_END)?;
    let size = byte(size, 0, MAX_SIZE)?;
    Ok(Command::Duo(DuoEvent::Provide { x, size }))
}

// `X`
#[inline(always)]
fn at_end(fabric: &Fabric, event: AtEnd, args: Words) -> Result<Command, FaultKind>
    ensures { result ≡ and_then (said_by (of_end ∷ []) (words_of args.entry))
        (duo_meant (duo_event event) fabric.now) }
{
    let Some(x) = one(args) else {
        return Err(FaultKind::BadWord);
    };
    let x = byte(x, 0, MAX_END)?;
    Ok(Command::Duo(match event {
        AtEnd::Emit => DuoEvent::Emit(x),
        AtEnd::Expire => DuoEvent::Expire(x),
        AtEnd::Poll => DuoEvent::Poll(x),
        AtEnd::Restart => DuoEvent::Restart(x),
    }))
}

// `K`
#[inline(always)]
fn deliver(fabric: &Fabric, args: Words) -> Result<Command, FaultKind>
    ensures { result ≡ and_then (said_by (OfNumber 0 4294967295 ∷ []) (words_of args.entry))
        (duo_meant Deliver fabric.now) }
{
    if let Some(place) = one_within(args.rest(), 0, u32::MAX) {
        return Ok(Command::Duo(DuoEvent::Deliver(u64::from(place))));
    }
    let Some(place) = one(args) else {
        return Err(FaultKind::BadWord);
    };
    let place = u64::from(number(place, 0, u32::MAX)?);
    Ok(Command::Duo(DuoEvent::Deliver(place)))
}
