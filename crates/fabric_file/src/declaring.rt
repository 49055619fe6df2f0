//! A line of the fabric part: its words, and what they declare or their first fault.

ghost use Rattle.std.specs.Prelude.{◌≡◌, IsErrOf, IsOk};
ghost use Rattle.fab_text.specs.Line.{words_of};
ghost use Rattle.fab_text.specs.Fault.{LineLeaves};
ghost use Rattle.fabric_file.specs.Declaring.{declared, declared_as, host_line, switch_line, cable_line, host_declared};
ghost use Rattle.fabric_file.specs.Declaring.{switch_declared, cable_declared, cable_between, number_word, port_word};
ghost use Rattle.fabric_file.specs.Declaring.{end_word, added_of, is_script};

use fab_text::{FaultKind, LineFault, Words, is_keyword, is_name, read_u32, words};
use port_graph::{End, Fabric, GraphFault, Vertex};
use std::alloc::Global;

// The greatest port of a switch.
const MAX_PORT: u32 = 15;

// The greatest number of ports of a switch.
const MAX_PORTS: u32 = 16;

/// Whether a line is `script`.
pub(crate) fn is_script(line: &[u8]) -> bool
    ensures { result ≡ is_script (words_of line.now) }
{
    match words(line).one() {
        Some(word) => is_keyword(word, b"script"),
        None => false,
    }
}

/// Adds what a line declares. A line that has a fault takes no memory.
pub(crate) fn declare(alloc: Global, fabric: &mut Fabric, line: &[u8]) -> Result<(), LineFault>
    ensures reading { LineLeaves (declared fabric.old (words_of line.now)) fabric.new result }
    ensures memory { IsErrOf result LineFault.NoMemory → IsOk (declared fabric.old (words_of line.now)) }
{
    let mut args = words(line);
    match args.next_word() {
        Some(first) => declare_as(alloc, fabric, first, args),
        None => Err(LineFault::Wrong(FaultKind::BadWord)),
    }
}

// Adds what a line declares that begins with this word.
fn declare_as(
    alloc: Global,
    fabric: &mut Fabric,
    first: &[u8],
    args: Words,
) -> Result<(), LineFault>
    ensures reading { LineLeaves (declared_as fabric.old first.now (words_of args.entry)) fabric.new result }
    ensures memory { IsErrOf result LineFault.NoMemory → IsOk (declared_as fabric.old first.now (words_of args.entry)) }
{
    if is_keyword(first, b"host") {
        declare_host(alloc, fabric, args)
    } else if is_keyword(first, b"switch") {
        declare_switch(alloc, fabric, args)
    } else if is_keyword(first, b"cable") {
        declare_cable(fabric, args)
    } else {
        Err(LineFault::Wrong(FaultKind::BadWord))
    }
}

// `host NAME`
fn declare_host(alloc: Global, fabric: &mut Fabric, args: Words) -> Result<(), LineFault>
    ensures reading { LineLeaves (host_line fabric.old (words_of args.entry)) fabric.new result }
    ensures memory { IsErrOf result LineFault.NoMemory → IsOk (host_line fabric.old (words_of args.entry)) }
{
    match args.one() {
        Some(name) => add_host(alloc, fabric, name),
        None => Err(LineFault::Wrong(FaultKind::BadWord)),
    }
}

fn add_host(alloc: Global, fabric: &mut Fabric, name: &[u8]) -> Result<(), LineFault>
    ensures reading { LineLeaves (host_declared fabric.old name.now) fabric.new result }
    ensures memory { IsErrOf result LineFault.NoMemory → IsOk (host_declared fabric.old name.now) }
{
    if !is_name(name) {
        return Err(LineFault::Wrong(FaultKind::BadWord));
    }
    added(fabric.add_host(alloc, name))
}

// `switch NAME PORTS`
fn declare_switch(alloc: Global, fabric: &mut Fabric, args: Words) -> Result<(), LineFault>
    ensures reading { LineLeaves (switch_line fabric.old (words_of args.entry)) fabric.new result }
    ensures memory { IsErrOf result LineFault.NoMemory → IsOk (switch_line fabric.old (words_of args.entry)) }
{
    match args.two() {
        Some((name, ports)) => add_switch(alloc, fabric, name, ports),
        None => Err(LineFault::Wrong(FaultKind::BadWord)),
    }
}

fn add_switch(
    alloc: Global,
    fabric: &mut Fabric,
    name: &[u8],
    ports: &[u8],
) -> Result<(), LineFault>
    ensures reading { LineLeaves (switch_declared fabric.old name.now ports.now) fabric.new result }
    ensures memory { IsErrOf result LineFault.NoMemory → IsOk (switch_declared fabric.old name.now ports.now) }
{
    if !is_name(name) {
        return Err(LineFault::Wrong(FaultKind::BadWord));
    }
    match read_number(ports) {
        Ok(ports) if ports <= MAX_PORTS => added(fabric.add_switch(alloc, name, ports as u8)),
        Ok(_) => Err(LineFault::Wrong(FaultKind::PortRange)),
        Err(kind) => Err(LineFault::Wrong(kind)),
    }
}

// `cable V P W Q`
fn declare_cable(fabric: &mut Fabric, args: Words) -> Result<(), LineFault>
    ensures reading { LineLeaves (cable_line fabric.old (words_of args.entry)) fabric.new result }
    ensures memory { IsErrOf result LineFault.NoMemory → IsOk (cable_line fabric.old (words_of args.entry)) }
{
    match args.four() {
        Some(((v, p), (w, q))) => add_cable(fabric, v, p, w, q),
        None => Err(LineFault::Wrong(FaultKind::BadWord)),
    }
}

fn add_cable(fabric: &mut Fabric, v: &[u8], p: &[u8], w: &[u8], q: &[u8]) -> Result<(), LineFault>
    ensures reading { LineLeaves (cable_declared fabric.old v.now p.now w.now q.now) fabric.new result }
    ensures memory { IsErrOf result LineFault.NoMemory → IsOk (cable_declared fabric.old v.now p.now w.now q.now) }
{
    match (read_end(v, p), read_end(w, q)) {
        (Err(kind), _) => Err(LineFault::Wrong(kind)),
        (_, Err(kind)) => Err(LineFault::Wrong(kind)),
        (Ok(p), Ok(q)) => join(fabric, fabric.find(v), p, fabric.find(w), q),
    }
}

// Joins two ports, where both vertices are there.
fn join(
    fabric: &mut Fabric,
    v: Option<Vertex>,
    p: u8,
    w: Option<Vertex>,
    q: u8,
) -> Result<(), LineFault>
    ensures reading { LineLeaves (cable_between fabric.old v p w q) fabric.new result }
    ensures memory { IsErrOf result LineFault.NoMemory → IsOk (cable_between fabric.old v p w q) }
{
    match (v, w) {
        (Some(v), Some(w)) => added(fabric.add_cable(End { v, p }, End { v: w, p: q })),
        _ => Err(LineFault::Wrong(FaultKind::NoVertex)),
    }
}

// The form of `V P`: a name and a port, which is answered.
fn read_end(vertex: &[u8], port: &[u8]) -> Result<u8, FaultKind>
    ensures { result ≡ end_word vertex.now port.now }
{
    if is_name(vertex) {
        read_port(port)
    } else {
        Err(FaultKind::BadWord)
    }
}

// A port, which is at most 15.
fn read_port(word: &[u8]) -> Result<u8, FaultKind>
    ensures { result ≡ port_word word.now }
{
    match read_number(word) {
        Ok(port) if port <= MAX_PORT => Ok(port as u8),
        Ok(_) => Err(FaultKind::TooLarge),
        Err(kind) => Err(kind),
    }
}

// A number.
fn read_number(word: &[u8]) -> Result<u32, FaultKind>
    ensures { result ≡ number_word word.now }
{
    match read_u32(word) {
        Ok(number) => Ok(number),
        Err(fault) => Err(FaultKind::from(fault)),
    }
}

// What an added vertex or cable comes to.
fn added(answer: Result<u16, GraphFault>) -> Result<(), LineFault>
    ensures { result ≡ added_of answer }
{
    let kind = match answer {
        Ok(_) => return Ok(()),
        Err(GraphFault::NoMemory) => return Err(LineFault::NoMemory),
        Err(GraphFault::PortRange) => FaultKind::PortRange,
        Err(GraphFault::NameTaken) => FaultKind::NameTaken,
        Err(GraphFault::Full) => FaultKind::Full,
        Err(GraphFault::NoVertex) => FaultKind::NoVertex,
        Err(GraphFault::PortUsed) => FaultKind::PortUsed,
    };
    Err(LineFault::Wrong(kind))
}
