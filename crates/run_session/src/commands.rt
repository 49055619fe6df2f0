//! Every command of the fabric that makes no map, over the parts of a session.

ghost use Rattle.std.specs.Prelude.{◌≡◌, ℕ, false, IfErr, OnOk, OnErr};
ghost use Rattle.world_defs.specs.Links.{is_idle};
ghost use Rattle.world_defs.specs.World.{fabric_of};
ghost use Rattle.run_defs.specs.declared.command.Command.TheVariants.{Map};
ghost use Rattle.run_defs.specs.Duos.{IsOther};
ghost use Rattle.fab_script.specs.Ranges.{IsCommandOf};
ghost use Rattle.promise_laws.specs.CutShort.{IsCutShort};
ghost use Rattle.world_commands.specs.Cut.{HidesNoRefusal};
ghost use Rattle.world_commands.specs.Done.{session_of};
ghost use Rattle.run_session.specs.Holding.{AreWalkLinks};
ghost use Rattle.run_session.specs.Kept.{IsLastMap, AreLastRoutes, GoesOn};
ghost use Rattle.run_session.specs.Obeyed.{IsObeyed};

use crate::circuit_links::circuit;
use crate::installing::install_text;
use crate::last::{LastFound, LastMade};
use crate::mapping::busy_text;
use crate::routing::routes;
use crate::settling::settle_text;
use crate::walking::{WalkLinks, walk_text};
use fab_report::Printed;
use fab_world::World;
use run_defs::Command;
use std::alloc::Global;
use world_commands::{OutOfMemory, do_one, revoke};

/// Does a command that makes no map: `map` only where that is refused. Where memory runs out, the world is one that a
/// prefix of its acts leads to, and a refused command lacks only its line's text.
#[inline(always)]
#[tactic(auto, using(crate::proofs::ByCommand::commands_obeyed))]
pub(crate) fn obey_here(
    alloc: Global,
    w: &mut World,
    links: &mut WalkLinks,
    last_map: &Option<LastMade>,
    last_routes: &mut Option<LastFound>,
    c: &Command,
    printed: &mut Printed,
) -> Result<(), OutOfMemory>
    requires command { IsCommandOf (fabric_of w.old) c.now }
    requires other { IsOther c.now }
    requires busy { (host depth tries : ℕ) → c.now ≡ Map host depth tries → is_idle w.old.links ≡ false }
    requires map { IsLastMap w.old.links.cables last_map.now }
    requires routes { AreLastRoutes w.old.links.cables last_routes.old }
    requires links { AreWalkLinks w.old.links.cables links.old }
    ensures obeyed { OnOk result (IsObeyed (session_of w.old last_map.now last_routes.old) c.now
        (session_of w.new last_map.now last_routes.new) printed.new) }
    ensures routes { AreLastRoutes w.old.links.cables last_routes.new }
    ensures links { AreWalkLinks w.old.links.cables links.new }
    ensures cables { GoesOn w.old w.new }
    ensures err { OnErr result (last_routes.new ≡ last_routes.old) }
    ensures cut { OnErr result (IsCutShort (session_of w.old last_map.now last_routes.old) c.now w.new) }
    ensures unrefused { IfErr result (HidesNoRefusal (session_of w.old last_map.now last_routes.old) c.now w.new) }
{
    match c {
        Command::Map { host, .. } => busy_text(printed, w, *host),
        Command::Circuit { host, depth } => circuit(alloc, w, *host, *depth, printed),
        Command::Routes => routes(alloc, w, last_map, last_routes, printed),
        Command::Install { tries } => install_text(alloc, w, last_routes, *tries, printed),
        Command::Settle => settle_text(alloc, w, printed),
        Command::Revoke => revoke(alloc, w, printed),
        Command::Walk { host, walk } => walk_text(alloc, w, links, *host, walk.turns(), printed),
        _ => do_one(alloc, w, c, printed),
    }
}
