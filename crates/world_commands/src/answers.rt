//! One event of a client, and the line of what it was answered.

ghost use Rattle.std.specs.Prelude.{◌≡◌, length, IfErr, OnOk};
ghost use Rattle.world_defs.specs.Later.{IsLater};
ghost use Rattle.world_defs.specs.World.{fabric_of};
ghost use Rattle.world_defs.specs.declared.effect.Effect.TheVariants.{Said as SaidSo};
ghost use Rattle.run_defs.specs.Outcome.{client_lines};
ghost use Rattle.run_defs.specs.Output.{lines};
ghost use Rattle.run_defs.specs.declared.command.Command.{Command};
ghost use Rattle.fab_report.specs.Printed.{printed_of};
ghost use Rattle.fab_report.specs.There.{IsHost};
ghost use Rattle.client_host.specs.Calls.{IsClientCall};
ghost use Rattle.fab_world.specs.Events.{IsGiven};
ghost use Rattle.fab_world.specs.Held.{IsOfHosts};
ghost use Rattle.world_commands.specs.Cut.{IsLeft};
ghost use Rattle.world_commands.specs.Done.{IsCall, IsDone};

use crate::out_of_memory::OutOfMemory;
use fab_report::Printed;
use fab_world::{Event, Fabric, PortAt, World};
use run_defs::ClientCall;
use std::alloc::Global;
use world_defs::Said;

/// A client's call at a port, by its event: the command that this call is was done. Where memory runs out, nothing of
/// it was done and it isn't refused, or all of it was done but its line.
pub(crate) fn call(
    alloc: Global,
    w: &mut World,
    call: ClientCall,
    at: PortAt,
    event: Event,
    printed: &mut Printed,
) -> Result<(), OutOfMemory>
    requires host { IsHost (fabric_of w.old) at.host }
    requires client { IsClientCall event }
    requires given { IsGiven w.old event }
    ensures done { (c : Command) → IsCall c call at event → OnOk result (IsDone c w.old w.new printed.new) }
    ensures err { (c : Command) → IsCall c call at event → IfErr result (λ e. IsLeft c w.old w.new e) }
    ensures cables { IsLater w.old.links.cables w.new.links.cables }
{
    w.moment();
    let Ok(said) = w.call(alloc, event) else {
        return Err(OutOfMemory::InDoing);
    };
    print_answer(printed, w.fabric(), call, at, &said)
}

/// The line of an answer.
#[tactic(auto, using(crate::proofs::Calls::said_there))]
pub(crate) fn print_answer(
    printed: &mut Printed,
    f: &Fabric,
    call: ClientCall,
    at: PortAt,
    said: &Said,
) -> Result<(), OutOfMemory>
    requires host { IsHost f.now at.host }
    requires sender { IsOfHosts (length f.now.hosts) (SaidSo said.now) }
    ensures text { OnOk result (printed.new ≡ printed_of f.now (lines (client_lines call at.host at.port
        (SaidSo said.now)))) }
    ensures err { IfErr result (λ e. e ≡ OutOfMemory.InLine) }
{
    let Ok(()) = printed.put_said(f, call, at.host, at.port, said) else {
        return Err(OutOfMemory::InLine);
    };
    Ok(())
}
