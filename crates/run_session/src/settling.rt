//! A settle, and its text.

ghost use Rattle.std.specs.Prelude.{◌≡◌, Option, IfErr, OnOk, OnErr};
ghost use Rattle.world_defs.specs.Logs as log;
ghost use Rattle.world_defs.specs.Row.{IsPartWay};
ghost use Rattle.run_defs.specs.declared.command.Command.TheVariants.{Settle};
ghost use Rattle.run_defs.specs.Session.{LastMap, LastRoutes};
ghost use Rattle.world_commands.specs.Cut.{HidesNoRefusal};
ghost use Rattle.world_commands.specs.Done.{IsDone, session_of};
ghost use Rattle.run_session.specs.Kept.{GoesOn};

use fab_report::Printed;
use fab_world::World;
use run_defs::Line;
use std::alloc::Global;
use world_commands::{OutOfMemory, one_line};
use world_drain::settle;

/// Settles a world: its text is the line of what that came to. Running out of memory leaves a world that a prefix of
/// its events leads to.
#[tactic(auto, using(crate::proofs::Obeying::settled_so, crate::proofs::Going::goes_pulled))]
pub(crate) fn settle_text(
    alloc: Global,
    w: &mut World,
    printed: &mut Printed,
) -> Result<(), OutOfMemory>
    ensures done { OnOk result (IsDone Settle w.old w.new printed.new) }
    ensures err { OnErr result (IsPartWay w.old (log.settle w.old).events w.new) }
    ensures unrefused { IfErr result (λ e. (made : Option LastMap) → (found : Option LastRoutes)
        → HidesNoRefusal (session_of w.old made found) Settle w.new e) }
    ensures cables { GoesOn w.old w.new }
{
    let Ok(settled) = settle(alloc, w) else {
        return Err(OutOfMemory::InDoing);
    };
    let line = Line::Settle {
        rounds: settled.rounds,
        resets: settled.resets,
        unacked: settled.unacked,
    };
    one_line(printed, line, w.fabric())
}
