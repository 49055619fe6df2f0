//! Lines of mapping and routes: `map`, `circuit`, `routes`, `install`; and `settle`.

ghost use Rattle.std.specs.Prelude.{◌≡◌, ◌∷◌, []};
ghost use Rattle.fab_text.specs.Line.{words_of};
ghost use Rattle.fab_text.specs.Fault.{and_then};
ghost use Rattle.run_defs.specs.declared.command.Command.{Command};
ghost use Rattle.run_defs.specs.Script.{OfName, OfNumber, of_tries, said_by, map_meant, circuit_meant};
ghost use Rattle.run_defs.specs.Script.{install_meant, alone_meant};

use crate::counted::{none, one, three, two};
use crate::values::{byte, host, name};
use fab_text::{FaultKind, Words};
use port_graph::Fabric;
use run_defs::Command;

// The greatest depth of a map, and of a map of circuit links.
const MAX_DEPTH: u8 = 32;

// The most tries of an ask, or of a part.
const MAX_TRIES: u8 = 8;

/// `map H DEPTH TRIES`
pub(crate) fn map(fabric: &Fabric, args: Words) -> Result<Command, FaultKind>
    ensures { result ≡ and_then (said_by (OfName ∷ OfNumber 1 32 ∷ of_tries ∷ []) (words_of args.entry))
        (map_meant fabric.now) }
{
    let Some((h, depth, tries)) = three(args) else {
        return Err(FaultKind::BadWord);
    };
    name(h)?;
    let depth = byte(depth, 1, MAX_DEPTH)?;
    let tries = byte(tries, 1, MAX_TRIES)?;
    let host = host(fabric, h)?;
    Ok(Command::Map { host, depth, tries })
}

/// `circuit H DEPTH`
pub(crate) fn circuit(fabric: &Fabric, args: Words) -> Result<Command, FaultKind>
    ensures { result ≡ and_then (said_by (OfName ∷ OfNumber 1 32 ∷ []) (words_of args.entry))
        (circuit_meant fabric.now) }
{
    let Some((h, depth)) = two(args) else {
        return Err(FaultKind::BadWord);
    };
    name(h)?;
    let depth = byte(depth, 1, MAX_DEPTH)?;
    let host = host(fabric, h)?;
    Ok(Command::Circuit { host, depth })
}

/// `routes`
pub(crate) fn routes(fabric: &Fabric, args: Words) -> Result<Command, FaultKind>
    ensures { result ≡ and_then (said_by [] (words_of args.entry)) (alone_meant Command.Routes fabric.now) }
{
    if none(args) {
        Ok(Command::Routes)
    } else {
        Err(FaultKind::BadWord)
    }
}

/// `install TRIES`
pub(crate) fn install(fabric: &Fabric, args: Words) -> Result<Command, FaultKind>
    ensures { result ≡ and_then (said_by (of_tries ∷ []) (words_of args.entry)) (install_meant fabric.now) }
{
    let Some(tries) = one(args) else {
        return Err(FaultKind::BadWord);
    };
    let tries = byte(tries, 1, MAX_TRIES)?;
    Ok(Command::Install { tries })
}

/// `settle`
pub(crate) fn settle(fabric: &Fabric, args: Words) -> Result<Command, FaultKind>
    ensures { result ≡ and_then (said_by [] (words_of args.entry)) (alone_meant Command.Settle fabric.now) }
{
    if none(args) {
        Ok(Command::Settle)
    } else {
        Err(FaultKind::BadWord)
    }
}
