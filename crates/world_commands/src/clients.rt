//! The calls of clients, each one event. Where memory runs out, nothing of a call was done and it isn't refused, or all
//! of it was done but its line.

ghost use Rattle.std.specs.Prelude.{◌≤◌, IfErr, OnOk};
ghost use Rattle.world_defs.specs.Later.{IsLater};
ghost use Rattle.world_defs.specs.World.{fabric_of};
ghost use Rattle.run_defs.specs.declared.command.Command.TheVariants.{Begin, Close, Poll, Provide};
ghost use Rattle.fab_report.specs.There.{IsHost};
ghost use Rattle.world_commands.specs.Cut.{IsLeft};
ghost use Rattle.world_commands.specs.Done.{IsDone, sending};

use crate::answers::call;
use crate::out_of_memory::OutOfMemory;
use crate::requests::SendRequest;
use fab_report::Printed;
use fab_world::{PortAt, World};
use run_defs::ClientCall;
use std::alloc::Global;

/// Opens a port with so many tokens for sends and for receives.
pub fn open(
    alloc: Global,
    w: &mut World,
    at: PortAt,
    sends: u16,
    recvs: u16,
    printed: &mut Printed,
) -> Result<(), OutOfMemory>
    requires host { IsHost (fabric_of w.old) at.host }
    requires port { at.port ≤ 7 }
    ensures done { OnOk result (IsDone (Begin at.host at.port sends recvs) w.old w.new printed.new) }
    ensures err { IfErr result (λ e. IsLeft (Begin at.host at.port sends recvs) w.old w.new e) }
    ensures cables { IsLater w.old.links.cables w.new.links.cables }
{
    w.moment();
    let event = at.begin(sends, recvs);
    call(alloc, w, ClientCall::Begin, at, event, printed)
}

/// Closes a port.
pub fn close(
    alloc: Global,
    w: &mut World,
    at: PortAt,
    printed: &mut Printed,
) -> Result<(), OutOfMemory>
    requires host { IsHost (fabric_of w.old) at.host }
    requires port { at.port ≤ 7 }
    ensures done { OnOk result (IsDone (Close at.host at.port) w.old w.new printed.new) }
    ensures err { IfErr result (λ e. IsLeft (Close at.host at.port) w.old w.new e) }
    ensures cables { IsLater w.old.links.cables w.new.links.cables }
{
    w.moment();
    call(alloc, w, ClientCall::Close, at, at.close(), printed)
}

/// Takes the next event of a port.
pub fn poll(
    alloc: Global,
    w: &mut World,
    at: PortAt,
    printed: &mut Printed,
) -> Result<(), OutOfMemory>
    requires host { IsHost (fabric_of w.old) at.host }
    requires port { at.port ≤ 7 }
    ensures done { OnOk result (IsDone (Poll at.host at.port) w.old w.new printed.new) }
    ensures err { IfErr result (λ e. IsLeft (Poll at.host at.port) w.old w.new e) }
    ensures cables { IsLater w.old.links.cables w.new.links.cables }
{
    w.moment();
    call(alloc, w, ClientCall::Poll, at, at.poll(), printed)
}

/// Provides a buffer for messages of a size and a priority.
pub fn provide(
    alloc: Global,
    w: &mut World,
    at: PortAt,
    size: u8,
    prio: u8,
    printed: &mut Printed,
) -> Result<(), OutOfMemory>
    requires host { IsHost (fabric_of w.old) at.host }
    requires port { at.port ≤ 7 }
    ensures done { OnOk result (IsDone (Provide at.host at.port size prio) w.old w.new printed.new) }
    ensures err { IfErr result (λ e. IsLeft (Provide at.host at.port size prio) w.old w.new e) }
    ensures cables { IsLater w.old.links.cables w.new.links.cables }
{
    w.moment();
    let event = at.provide(size, prio);
    call(alloc, w, ClientCall::Provide, at, event, printed)
}

/// Sends a message from a port.
pub fn send(
    alloc: Global,
    w: &mut World,
    at: PortAt,
    m: SendRequest,
    printed: &mut Printed,
) -> Result<(), OutOfMemory>
    requires host { IsHost (fabric_of w.old) at.host }
    requires port { at.port ≤ 7 }
    requires dest { IsHost (fabric_of w.old) m.to.host }
    requires dport { m.to.port ≤ 7 }
    requires prio { m.prio ≤ 1 }
    ensures done { OnOk result (IsDone (sending at m) w.old w.new printed.new) }
    ensures err { IfErr result (λ e. IsLeft (sending at m) w.old w.new e) }
    ensures cables { IsLater w.old.links.cables w.new.links.cables }
{
    w.moment();
    let event = at.send(m.to, m.prio, m.len, m.seed);
    call(alloc, w, ClientCall::Send, at, event, printed)
}
