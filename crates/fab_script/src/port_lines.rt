//! Lines of a host's ports: `open`, `close`, `poll`, `tokens`, `provide` and `send`.

ghost use Rattle.std.specs.Prelude.{◌≡◌, ◌∷◌, []};
ghost use Rattle.fab_text.specs.Line.{words_of};
ghost use Rattle.fab_text.specs.Fault.{and_then};
ghost use Rattle.run_defs.specs.Script.{OfName, OfNumber, of_port, of_count, of_prio, said_by, open_meant};
ghost use Rattle.run_defs.specs.Script.{at_port_meant, provide_meant, send_meant};
ghost use Rattle.fab_script.specs.Commands.{port_command};

use crate::counted::{four, seven, two};
use crate::plain::{name_and_one, name_and_three};
use crate::values::{byte, host, name, number};
use fab_text::{FaultKind, Words};
use port_graph::Fabric;
use run_defs::Command;

// The greatest port of a host.
const MAX_PORT: u8 = 7;

// The most tokens of a kind that a port opens with.
const MAX_TOKENS: u8 = 64;

/// The greatest size that a line may name.
pub(crate) const MAX_SIZE: u8 = 31;

// The greatest priority.
const MAX_PRIO: u8 = 1;

/// The most bytes that a line may ask to send.
pub(crate) const MAX_LEN: u32 = 1_000_000;

/// What a line asks of a port without further words.
#[derive(Clone, Copy)]
pub(crate) enum PortCall {
    Close,
    Poll,
    Tokens,
}

/// `open H PORT SENDS RECVS`
pub(crate) fn open(fabric: &Fabric, args: Words) -> Result<Command, FaultKind>
    ensures { result ≡ and_then (said_by (OfName ∷ of_port ∷ of_count ∷ of_count ∷ []) (words_of args.entry))
        (open_meant fabric.now) }
{
    let Some((h, port, sends, recvs)) = four(args) else {
        return Err(FaultKind::BadWord);
    };
    name(h)?;
    let port = byte(port, 0, MAX_PORT)?;
    let sends = byte(sends, 0, MAX_TOKENS)?;
    let recvs = byte(recvs, 0, MAX_TOKENS)?;
    let host = host(fabric, h)?;
    Ok(Command::Begin {
        host,
        port,
        sends: u16::from(sends),
        recvs: u16::from(recvs),
    })
}

/// `close H PORT`, `poll H PORT`, `tokens H PORT`. It stands in its callers, as the readers of lines `duo` do.
#[inline(always)]
pub(crate) fn at_port(fabric: &Fabric, call: PortCall, args: Words) -> Result<Command, FaultKind>
    ensures { result ≡ and_then (said_by (OfName ∷ of_port ∷ []) (words_of args.entry))
        (at_port_meant (port_command call) fabric.now) }
{
    if let Some((h, port)) = name_and_one(&args, u32::from(MAX_PORT)) {
        return Ok(called(call, host(fabric, h)?, port as u8));
    }
    let Some((h, port)) = two(args) else {
        return Err(FaultKind::BadWord);
    };
    name(h)?;
    let port = byte(port, 0, MAX_PORT)?;
    let host = host(fabric, h)?;
    Ok(called(call, host, port))
}

// The command that asks this of a host's port.
#[inline(always)]
fn called(call: PortCall, host: u16, port: u8) -> Command
    ensures { result ≡ port_command call host port }
{
    match call {
        PortCall::Close => Command::Close { host, port },
        PortCall::Poll => Command::Poll { host, port },
        PortCall::Tokens => Command::Tokens { host, port },
    }
}

/// `provide H PORT SIZE PRIO`
pub(crate) fn provide(fabric: &Fabric, args: Words) -> Result<Command, FaultKind>
    ensures { result ≡ and_then (said_by (OfName ∷ of_port ∷ OfNumber 0 31 ∷ of_prio ∷ []) (words_of args.entry))
        (provide_meant fabric.now) }
{
    let plain = name_and_three(
        &args,
        u32::from(MAX_PORT),
        u32::from(MAX_SIZE),
        u32::from(MAX_PRIO),
    );
    if let Some((h, port, size, prio)) = plain {
        let host = host(fabric, h)?;
        let (port, size, prio) = (port as u8, size as u8, prio as u8);
        return Ok(Command::Provide {
            host,
            port,
            size,
            prio,
        });
    }
    let Some((h, port, size, prio)) = four(args) else {
        return Err(FaultKind::BadWord);
    };
    name(h)?;
    let port = byte(port, 0, MAX_PORT)?;
    let size = byte(size, 0, MAX_SIZE)?;
    let prio = byte(prio, 0, MAX_PRIO)?;
    let host = host(fabric, h)?;
    Ok(Command::Provide {
        host,
        port,
        size,
        prio,
    })
}

/// `send H PORT B BPORT PRIO LEN SEED`
pub(crate) fn send(fabric: &Fabric, args: Words) -> Result<Command, FaultKind>
    ensures { result ≡ and_then (said_by (OfName ∷ of_port ∷ OfName ∷ of_port ∷ of_prio ∷ OfNumber 0 1000000
        ∷ OfNumber 0 255 ∷ []) (words_of args.entry)) (send_meant fabric.now) }
{
    let Some(((h, port, b), (dport, prio, len, seed))) = seven(args) else {
        return Err(FaultKind::BadWord);
    };
    name(h)?;
    let port = byte(port, 0, MAX_PORT)?;
    name(b)?;
    let dport = byte(dport, 0, MAX_PORT)?;
    let prio = byte(prio, 0, MAX_PRIO)?;
    let len = number(len, 0, MAX_LEN)?;
    let seed = byte(seed, 0, u8::MAX)?;
    let sender = host(fabric, h)?;
    let dest = host(fabric, b)?;
    Ok(Command::Send {
        host: sender,
        port,
        dest,
        dport,
        prio,
        len,
        seed,
    })
}
