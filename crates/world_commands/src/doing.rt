//! Every command of one event at most, but for a walk.

ghost use Rattle.std.specs.Prelude.{IfErr, OnOk};
ghost use Rattle.world_defs.specs.Later.{IsLater};
ghost use Rattle.world_defs.specs.World.{fabric_of};
ghost use Rattle.fab_script.specs.Ranges.{IsCommandOf};
ghost use Rattle.world_commands.specs.Cut.{IsLeft};
ghost use Rattle.world_commands.specs.Done.{IsDone, IsOneEvent, IsCableCommand, IsPortCommand, IsMessageCommand};

use crate::clients::{close, open, poll, provide, send};
use crate::out_of_memory::OutOfMemory;
use crate::places::tokens;
use crate::remapping::{broken, plug, pull};
use crate::requests::SendRequest;
use crate::stepping::step;
use crate::telling::{finish, plan};
use fab_report::Printed;
use fab_world::{PortAt, World};
use run_defs::Command;
use std::alloc::Global;

/// Does a command of one event at most, which is no walk: that needs links of its own. Where memory runs out, nothing
/// of it was done and it isn't refused, or all of it was done but its line.
#[tactic(auto, using(crate::proofs::Done::done_as, crate::proofs::Cut::left_as))]
pub fn do_one(
    alloc: Global,
    w: &mut World,
    c: &Command,
    printed: &mut Printed,
) -> Result<(), OutOfMemory>
    requires one_event { IsOneEvent c.now }
    requires command { IsCommandOf (fabric_of w.old) c.now }
    ensures done { OnOk result (IsDone c.now w.old w.new printed.new) }
    ensures err { IfErr result (λ e. IsLeft c.now w.old w.new e) }
    ensures cables { IsLater w.old.links.cables w.new.links.cables }
{
    match c {
        Command::Plan { ahead, kind } => plan(w, *ahead, *kind, printed),
        Command::Step(line) => step(alloc, w, *line, printed),
        Command::Finish => finish(w, printed),
        Command::Pull(_) | Command::Plug(_, _) | Command::Broken => do_cable(alloc, w, c, printed),
        Command::Begin { .. } | Command::Close { .. } | Command::Tokens { .. } => {
            do_port(alloc, w, c, printed)
        }
        _ => do_message(alloc, w, c, printed),
    }
}

// Pulls a cable, plugs one, or names the adopted routes that a pull broke.
#[tactic(auto, using(crate::proofs::Done::done_as, crate::proofs::Cut::left_as))]
fn do_cable(
    alloc: Global,
    w: &mut World,
    c: &Command,
    printed: &mut Printed,
) -> Result<(), OutOfMemory>
    requires cable { IsCableCommand c.now }
    requires command { IsCommandOf (fabric_of w.old) c.now }
    ensures done { OnOk result (IsDone c.now w.old w.new printed.new) }
    ensures err { IfErr result (λ e. IsLeft c.now w.old w.new e) }
    ensures cables { IsLater w.old.links.cables w.new.links.cables }
{
    match c {
        Command::Pull(at) => pull(alloc, w, *at, printed),
        Command::Plug(a, b) => plug(alloc, w, *a, *b, printed),
        Command::Broken => broken(alloc, w, printed),
        _ => unreachable!(),
    }
}

// Opens a port, closes it, or says where its tokens are.
#[tactic(auto, using(crate::proofs::Done::done_as, crate::proofs::Cut::left_as))]
fn do_port(
    alloc: Global,
    w: &mut World,
    c: &Command,
    printed: &mut Printed,
) -> Result<(), OutOfMemory>
    requires port { IsPortCommand c.now }
    requires command { IsCommandOf (fabric_of w.old) c.now }
    ensures done { OnOk result (IsDone c.now w.old w.new printed.new) }
    ensures err { IfErr result (λ e. IsLeft c.now w.old w.new e) }
    ensures cables { IsLater w.old.links.cables w.new.links.cables }
{
    match c {
        Command::Begin {
            host,
            port,
            sends,
            recvs,
        } => open(alloc, w, PortAt::new(*host, *port), *sends, *recvs, printed),
        Command::Close { host, port } => close(alloc, w, PortAt::new(*host, *port), printed),
        Command::Tokens { host, port } => tokens(w, PortAt::new(*host, *port), printed),
        _ => unreachable!(),
    }
}

// Provides a buffer, sends a message, or takes what came of these.
#[tactic(auto, using(crate::proofs::Done::done_as, crate::proofs::Cut::left_as))]
fn do_message(
    alloc: Global,
    w: &mut World,
    c: &Command,
    printed: &mut Printed,
) -> Result<(), OutOfMemory>
    requires message { IsMessageCommand c.now }
    requires command { IsCommandOf (fabric_of w.old) c.now }
    ensures done { OnOk result (IsDone c.now w.old w.new printed.new) }
    ensures err { IfErr result (λ e. IsLeft c.now w.old w.new e) }
    ensures cables { IsLater w.old.links.cables w.new.links.cables }
{
    match c {
        Command::Provide {
            host,
            port,
            size,
            prio,
        } => provide(alloc, w, PortAt::new(*host, *port), *size, *prio, printed),
        Command::Poll { host, port } => poll(alloc, w, PortAt::new(*host, *port), printed),
        Command::Send {
            host,
            port,
            dest,
            dport,
            prio,
            len,
            seed,
        } => {
            let to = PortAt::new(*dest, *dport);
            let message = SendRequest {
                to,
                prio: *prio,
                len: *len,
                seed: *seed,
            };
            send(alloc, w, PortAt::new(*host, *port), message, printed)
        }
        _ => unreachable!(),
    }
}
