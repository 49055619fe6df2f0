//! One line of a script: the command that it says, or its first fault.

ghost use Rattle.std.specs.Prelude.{◌≡◌, IsErrOf, IsOk};
ghost use Rattle.fab_text.specs.Line.{words_of};
ghost use Rattle.fab_text.specs.Fault.{LineGives};
ghost use Rattle.run_defs.specs.Script.{command_as, command_by, command_of, line_kinds};
ghost use Rattle.fab_script.specs.Values.{cable_kinds, command_but_walk};

use crate::cable_lines::{broken, plug, pull, revoke};
use crate::duo_lines::duo;
use crate::leading::after_keyword;
use crate::map_lines::{circuit, install, map, routes, settle};
use crate::plan_lines::plan;
use crate::port_lines::{PortCall, at_port, open, provide, send};
use crate::step_lines::step;
use crate::walk_line::walk;
use fab_text::{FaultKind, LineFault, Words, is_keyword, words};
use port_graph::Fabric;
use run_defs::Command;
use std::alloc::Global;

/// The command that a line says over a fabric, or the line's first fault: the first word (with `plan`, `step` and `duo`
/// the second word too), the number of words, each further word's form from left to right, and then the rules of the
/// fabric. A line that has a fault takes no memory.
///
/// The words that most lines of a long script begin with are looked for first. Each answer is returned at once: an `if`
/// whose value is a command would copy it once for each word in front of its own.
pub fn read_command(alloc: Global, fabric: &Fabric, line: &[u8]) -> Result<Command, LineFault>
    ensures reading { LineGives (command_of fabric.now (words_of line.now)) result }
    ensures memory { IsErrOf result LineFault.NoMemory → IsOk (command_of fabric.now (words_of line.now)) }
{
    let args = words(line);
    if let Some(left) = after_keyword(&args, b"walk") {
        return walk(alloc, fabric, left);
    }
    if let Some(left) = after_keyword(&args, b"duo") {
        return in_line(duo(fabric, left));
    }
    if let Some(left) = after_keyword(&args, b"plan") {
        return in_line(plan(fabric, left));
    }
    if let Some(left) = after_keyword(&args, b"poll") {
        return in_line(at_port(fabric, PortCall::Poll, left));
    }
    if let Some(left) = after_keyword(&args, b"provide") {
        return in_line(provide(fabric, left));
    }
    if let Some(left) = after_keyword(&args, b"send") {
        return in_line(send(fabric, left));
    }
    read_words(alloc, fabric, args)
}

// The command of a line by its first word, wherever that ends. It is no part of its caller, which each line pays for.
#[inline(never)]
fn read_words(alloc: Global, fabric: &Fabric, mut args: Words) -> Result<Command, LineFault>
    ensures reading { LineGives (command_of fabric.now (words_of args.entry)) result }
    ensures memory { IsErrOf result LineFault.NoMemory → IsOk (command_of fabric.now (words_of args.entry)) }
{
    match args.next_word() {
        Some(first) => read_as(alloc, fabric, first, args),
        None => Err(LineFault::Wrong(FaultKind::BadWord)),
    }
}

// What a line says that takes no memory.
fn in_line(said: Result<Command, FaultKind>) -> Result<Command, LineFault>
    ensures reading { LineGives said result }
    ensures memory { IsErrOf result LineFault.NoMemory → IsOk said }
{
    match said {
        Ok(command) => Ok(command),
        Err(kind) => Err(LineFault::Wrong(kind)),
    }
}

// The command of a line that begins with this word.
fn read_as(alloc: Global, fabric: &Fabric, first: &[u8], args: Words) -> Result<Command, LineFault>
    ensures reading { LineGives (command_as fabric.now first.now (words_of args.entry)) result }
    ensures memory { IsErrOf result LineFault.NoMemory → IsOk (command_as fabric.now first.now (words_of args.entry)) }
{
    if is_keyword(first, b"walk") {
        return walk(alloc, fabric, args);
    }
    in_line(read_but_walk(fabric, first, args))
}

// The same, where the word isn't `walk`.
fn read_but_walk(fabric: &Fabric, first: &[u8], args: Words) -> Result<Command, FaultKind>
    ensures { result ≡ command_but_walk fabric.now first.now (words_of args.entry) }
{
    if is_keyword(first, b"plan") {
        plan(fabric, args)
    } else if is_keyword(first, b"step") {
        step(fabric, args)
    } else if is_keyword(first, b"duo") {
        duo(fabric, args)
    } else {
        read_by_one_word(fabric, first, args)
    }
}

// The same of a line that one word names.
fn read_by_one_word(fabric: &Fabric, first: &[u8], args: Words) -> Result<Command, FaultKind>
    ensures { result ≡ command_by fabric.now line_kinds first.now (words_of args.entry) }
{
    if is_keyword(first, b"map") {
        map(fabric, args)
    } else if is_keyword(first, b"routes") {
        routes(fabric, args)
    } else if is_keyword(first, b"install") {
        install(fabric, args)
    } else if is_keyword(first, b"open") {
        open(fabric, args)
    } else if is_keyword(first, b"close") {
        at_port(fabric, PortCall::Close, args)
    } else if is_keyword(first, b"poll") {
        at_port(fabric, PortCall::Poll, args)
    } else if is_keyword(first, b"tokens") {
        at_port(fabric, PortCall::Tokens, args)
    } else if is_keyword(first, b"provide") {
        provide(fabric, args)
    } else if is_keyword(first, b"send") {
        send(fabric, args)
    } else if is_keyword(first, b"settle") {
        settle(fabric, args)
    } else if is_keyword(first, b"circuit") {
        circuit(fabric, args)
    } else {
        read_of_cables(fabric, first, args)
    }
}

// The same of a line of cables or epochs.
fn read_of_cables(fabric: &Fabric, first: &[u8], args: Words) -> Result<Command, FaultKind>
    ensures { result ≡ command_by fabric.now cable_kinds first.now (words_of args.entry) }
{
    if is_keyword(first, b"pull") {
        pull(fabric, args)
    } else if is_keyword(first, b"plug") {
        plug(fabric, args)
    } else if is_keyword(first, b"revoke") {
        revoke(fabric, args)
    } else if is_keyword(first, b"broken") {
        broken(fabric, args)
    } else {
        Err(FaultKind::BadWord)
    }
}
