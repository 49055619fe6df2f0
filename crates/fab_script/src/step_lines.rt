//! Lines of single events: `step` and one word more, which counts with it. A channel is named by the end that it
//! leaves.

ghost use Rattle.std.specs.Prelude.{◌≡◌, ◌∷◌, []};
ghost use Rattle.fab_text.specs.Line.{words_of};
ghost use Rattle.fab_text.specs.Fault.{and_then};
ghost use Rattle.run_defs.specs.Script.{OfName, OfNumber, of_switch_port, of_bit, of_pattern, said_by, host_step_meant};
ghost use Rattle.run_defs.specs.Script.{end_step_meant, flip_step_meant, expire_meant, replay_meant, step_kinds};
ghost use Rattle.run_defs.specs.Script.{by_second, command_by};
ghost use Rattle.fab_script.specs.Commands.{end_step, host_step};

use crate::counted::{four, one, two};
use crate::plan_lines::MAX_BIT;
use crate::values::{byte, end, host, name, number};
use fab_text::{FaultKind, Words, is_keyword};
use port_graph::Fabric;
use run_defs::{Command, StepLine};

/// The greatest port of a switch.
pub(crate) const MAX_PORT: u8 = 15;

// An event that a host alone names.
#[derive(Clone, Copy)]
enum HostStep {
    Inject,
    GiveUp,
}

// An event that a channel alone names.
#[derive(Clone, Copy)]
enum EndStep {
    Advance,
    Lose,
    Repeat,
    Hold,
    Reset,
}

/// `step`, and what follows it.
pub(crate) fn step(fabric: &Fabric, mut args: Words) -> Result<Command, FaultKind>
    ensures { result ≡ by_second fabric.now step_kinds (words_of args.entry) }
{
    match args.next_word() {
        Some(second) => step_by(fabric, second, args),
        None => Err(FaultKind::BadWord),
    }
}

// The event that this word says.
fn step_by(fabric: &Fabric, second: &[u8], args: Words) -> Result<Command, FaultKind>
    ensures { result ≡ command_by fabric.now step_kinds second.now (words_of args.entry) }
{
    if is_keyword(second, b"inject") {
        at_host(fabric, HostStep::Inject, args)
    } else if is_keyword(second, b"giveup") {
        at_host(fabric, HostStep::GiveUp, args)
    } else if is_keyword(second, b"advance") {
        at_end(fabric, EndStep::Advance, args)
    } else if is_keyword(second, b"lose") {
        at_end(fabric, EndStep::Lose, args)
    } else if is_keyword(second, b"repeat") {
        at_end(fabric, EndStep::Repeat, args)
    } else if is_keyword(second, b"hold") {
        at_end(fabric, EndStep::Hold, args)
    } else if is_keyword(second, b"reset") {
        at_end(fabric, EndStep::Reset, args)
    } else if is_keyword(second, b"flip") {
        flip(fabric, args)
    } else if is_keyword(second, b"expire") {
        expire(fabric, args)
    } else if is_keyword(second, b"replay") {
        replay(fabric, args)
    } else {
        Err(FaultKind::BadWord)
    }
}

// `H`
fn at_host(fabric: &Fabric, step: HostStep, args: Words) -> Result<Command, FaultKind>
    ensures { result ≡ and_then (said_by (OfName ∷ []) (words_of args.entry))
        (host_step_meant (host_step step) fabric.now) }
{
    let Some(h) = one(args) else {
        return Err(FaultKind::BadWord);
    };
    name(h)?;
    let host = host(fabric, h)?;
    Ok(Command::Step(match step {
        HostStep::Inject => StepLine::Inject(host),
        HostStep::GiveUp => StepLine::GiveUp(host),
    }))
}

// `V P`
fn at_end(fabric: &Fabric, step: EndStep, args: Words) -> Result<Command, FaultKind>
    ensures { result ≡ and_then (said_by (OfName ∷ of_switch_port ∷ []) (words_of args.entry))
        (end_step_meant (end_step step) fabric.now) }
{
    let Some((v, p)) = two(args) else {
        return Err(FaultKind::BadWord);
    };
    name(v)?;
    let p = byte(p, 0, MAX_PORT)?;
    let at = end(fabric, v, p)?;
    Ok(Command::Step(match step {
        EndStep::Advance => StepLine::Advance(at),
        EndStep::Lose => StepLine::Lose(at),
        EndStep::Repeat => StepLine::Repeat(at),
        EndStep::Hold => StepLine::Hold(at),
        EndStep::Reset => StepLine::Reset(at),
    }))
}

// `V P BIT PATTERN`
fn flip(fabric: &Fabric, args: Words) -> Result<Command, FaultKind>
    ensures { result ≡ and_then (said_by (OfName ∷ of_switch_port ∷ of_bit ∷ of_pattern ∷ []) (words_of args.entry))
        (flip_step_meant fabric.now) }
{
    let Some((v, p, bit, pattern)) = four(args) else {
        return Err(FaultKind::BadWord);
    };
    name(v)?;
    let p = byte(p, 0, MAX_PORT)?;
    let bit = number(bit, 0, MAX_BIT)?;
    let pattern = byte(pattern, 1, u8::MAX)?;
    let at = end(fabric, v, p)?;
    Ok(Command::Step(StepLine::Flip { at, bit, pattern }))
}

// `H B`
fn expire(fabric: &Fabric, args: Words) -> Result<Command, FaultKind>
    ensures { result ≡ and_then (said_by (OfName ∷ OfName ∷ []) (words_of args.entry)) (expire_meant fabric.now) }
{
    let Some((h, b)) = two(args) else {
        return Err(FaultKind::BadWord);
    };
    name(h)?;
    name(b)?;
    let sender = host(fabric, h)?;
    let peer = host(fabric, b)?;
    Ok(Command::Step(StepLine::Expire { host: sender, peer }))
}

// `SERIAL`
fn replay(fabric: &Fabric, args: Words) -> Result<Command, FaultKind>
    ensures { result ≡ and_then (said_by (OfNumber 0 4294967295 ∷ []) (words_of args.entry)) (replay_meant fabric.now) }
{
    let Some(serial) = one(args) else {
        return Err(FaultKind::BadWord);
    };
    let serial = number(serial, 0, u32::MAX)?;
    Ok(Command::Step(StepLine::Replay(serial)))
}
