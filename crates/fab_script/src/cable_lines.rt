//! Lines of cables and epochs: `pull`, `plug`, `revoke` and `broken`.

ghost use Rattle.std.specs.Prelude.{◌≡◌, ◌∷◌, []};
ghost use Rattle.net_defs.specs.Building.{vertex_named};
ghost use Rattle.fab_text.specs.Line.{words_of};
ghost use Rattle.fab_text.specs.Fault.{and_then};
ghost use Rattle.run_defs.specs.declared.command.Command.{Command};
ghost use Rattle.run_defs.specs.declared.command.Command.TheVariants.{Plug};
ghost use Rattle.run_defs.specs.Script.{OfName, of_switch_port, said_by, alone_meant, pull_meant, plug_meant};
ghost use Rattle.run_defs.specs.Script.{two_ends_at};

use crate::counted::{four, none, two};
use crate::step_lines::MAX_PORT;
use crate::values::{byte, end, end_of, name};
use fab_text::{FaultKind, Words};
use port_graph::Fabric;
use run_defs::Command;

/// `pull V P`
pub(crate) fn pull(fabric: &Fabric, args: Words) -> Result<Command, FaultKind>
    ensures { result ≡ and_then (said_by (OfName ∷ of_switch_port ∷ []) (words_of args.entry))
        (pull_meant fabric.now) }
{
    let Some((v, p)) = two(args) else {
        return Err(FaultKind::BadWord);
    };
    name(v)?;
    let p = byte(p, 0, MAX_PORT)?;
    let at = end(fabric, v, p)?;
    Ok(Command::Pull(at))
}

/// `plug V P W Q`
pub(crate) fn plug(fabric: &Fabric, args: Words) -> Result<Command, FaultKind>
    ensures { result ≡ and_then (said_by (OfName ∷ of_switch_port ∷ OfName ∷ of_switch_port ∷ [])
        (words_of args.entry)) (plug_meant fabric.now) }
{
    let Some((v, p, w, q)) = four(args) else {
        return Err(FaultKind::BadWord);
    };
    name(v)?;
    let p = byte(p, 0, MAX_PORT)?;
    name(w)?;
    let q = byte(q, 0, MAX_PORT)?;
    plug_at(fabric, v, p, w, q)
}

// The same at the ends of these vertices: both must be there, and then both ports.
fn plug_at(fabric: &Fabric, v: &[u8], p: u8, w: &[u8], q: u8) -> Result<Command, FaultKind>
    ensures { result
        ≡ two_ends_at fabric.now (vertex_named fabric.now v.now) p (vertex_named fabric.now w.now) q Plug }
{
    let (Some(v), Some(w)) = (fabric.find(v), fabric.find(w)) else {
        return Err(FaultKind::NoVertex);
    };
    let a = end_of(fabric, v, p)?;
    let b = end_of(fabric, w, q)?;
    Ok(Command::Plug(a, b))
}

/// `revoke`
pub(crate) fn revoke(fabric: &Fabric, args: Words) -> Result<Command, FaultKind>
    ensures { result ≡ and_then (said_by [] (words_of args.entry)) (alone_meant Command.Revoke fabric.now) }
{
    if none(args) {
        Ok(Command::Revoke)
    } else {
        Err(FaultKind::BadWord)
    }
}

/// `broken`
pub(crate) fn broken(fabric: &Fabric, args: Words) -> Result<Command, FaultKind>
    ensures { result ≡ and_then (said_by [] (words_of args.entry)) (alone_meant Command.Broken fabric.now) }
{
    if none(args) {
        Ok(Command::Broken)
    } else {
        Err(FaultKind::BadWord)
    }
}
