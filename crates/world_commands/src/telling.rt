//! The commands of one line that is no event's: a walk, a plan, and the end.

ghost use Rattle.std.specs.Prelude.{◌≡◌, ◌≤◌, length, All, IfErr, OnOk};
ghost use Rattle.net_defs.specs.Turn.{IsTurn};
ghost use Rattle.world_defs.specs.Later.{IsLater};
ghost use Rattle.world_defs.specs.Links.{empty_links};
ghost use Rattle.world_defs.specs.World.{fabric_of};
ghost use Rattle.run_defs.specs.Outcome.{fault_of};
ghost use Rattle.run_defs.specs.declared.command.Command.TheVariants.{Walk, Plan, Finish};
ghost use Rattle.world_commands.specs.Cut.{IsLeft};
ghost use Rattle.world_commands.specs.Done.{IsDone};

use crate::out_of_memory::{OutOfMemory, one_line};
use fab_report::Printed;
use fab_world::{Fault, World};
use link_model::{Links, walk_alone};
use run_defs::{Line, PlanKind};
use std::alloc::Global;

/// Where a walk ends: a packet takes its turns alone over these links, which are empty before and after.
pub fn walk(
    alloc: Global,
    w: &World,
    links: &mut Links,
    host: u16,
    turns: &[i8],
    printed: &mut Printed,
) -> Result<(), OutOfMemory>
    requires short { length turns.now ≤ 64 }
    requires turns { All IsTurn turns.now }
    requires empty { links.old ≡ empty_links (fabric_of w.now) }
    ensures done { OnOk result (IsDone (Walk host turns.now) w.now w.now printed.new) }
    ensures err { IfErr result (λ e. IsLeft (Walk host turns.now) w.now w.now e) }
    ensures links { links.new ≡ links.old }
{
    let Ok(end) = walk_alone(alloc, links, host, turns) else {
        return Err(OutOfMemory::InDoing);
    };
    one_line(printed, Line::Walk(end), w.fabric())
}

/// Plans a fault for the injection so far ahead. Where memory runs out, nothing was done, or all but the line.
#[tactic(auto, using(crate::proofs::Done::planned_so))]
pub fn plan(
    w: &mut World,
    ahead: u64,
    kind: PlanKind,
    printed: &mut Printed,
) -> Result<(), OutOfMemory>
    requires { 1 ≤ ahead }
    ensures done { OnOk result (IsDone (Plan ahead kind) w.old w.new printed.new) }
    ensures err { IfErr result (λ e. IsLeft (Plan ahead kind) w.old w.new e) }
    ensures cables { IsLater w.old.links.cables w.new.links.cables }
{
    let Ok(number) = w.plan(ahead, fault_of(kind)) else {
        return Err(OutOfMemory::InDoing);
    };
    one_line(printed, Line::PlanAt(number), w.fabric())
}

// The fault that a line of a plan means.
fn fault_of(kind: PlanKind) -> Fault
    ensures { result ≡ fault_of kind }
{
    match kind {
        PlanKind::Lose => Fault::Lose,
        PlanKind::Repeat => Fault::Repeat,
        PlanKind::Hold => Fault::Hold,
        PlanKind::Flip { bit, pattern } => Fault::Flip { bit, pattern },
        PlanKind::Pull { at } => Fault::Pull { at },
    }
}

/// The injections and the drops of the whole run.
#[tactic(auto, using(crate::proofs::Done::finished))]
pub fn finish(w: &World, printed: &mut Printed) -> Result<(), OutOfMemory>
    ensures done { OnOk result (IsDone Finish w.now w.now printed.new) }
    ensures err { IfErr result (λ e. IsLeft Finish w.now w.now e) }
{
    let line = Line::Finish {
        injected: w.injected(),
        dropped: w.dropped(),
    };
    one_line(printed, line, w.fabric())
}
