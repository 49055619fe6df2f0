//! The routes of the last map, and their text.

ghost use Rattle.std.specs.Prelude.{◌≡◌, IfErr, OnOk, OnErr};
ghost use Rattle.run_defs.specs.declared.command.Command.TheVariants.{Routes};
ghost use Rattle.world_commands.specs.Cut.{HidesNoRefusal};
ghost use Rattle.world_commands.specs.Done.{session_of};
ghost use Rattle.run_session.specs.Kept.{WasKeptMap, IsLastMap, AreLastRoutes};
ghost use Rattle.run_session.specs.Obeyed.{IsObeyed};
ghost use Rattle.run_session.specs.Told.{AreRoutesTold};

use crate::last::{LastFound, LastMade, complete};
use fab_report::Printed;
use fab_world::World;
use route_making::{hosts_of_map, make_routes};
use run_defs::Line;
use std::alloc::Global;
use world_commands::{OutOfMemory, one_line};

/// Computes the routes of the last map, which are the last ones then; refused unless that map says complete. They are
/// of the fabric as it stood when that map began, whatever was pulled or plugged since.
#[tactic(auto, using(crate::proofs::Obeying::no_map_so, crate::proofs::Obeying::routed_so))]
pub(crate) fn routes(
    alloc: Global,
    w: &World,
    last_map: &Option<LastMade>,
    last_routes: &mut Option<LastFound>,
    printed: &mut Printed,
) -> Result<(), OutOfMemory>
    requires map { IsLastMap w.now.links.cables last_map.now }
    requires kept { AreLastRoutes w.now.links.cables last_routes.old }
    ensures obeyed { OnOk result (IsObeyed (session_of w.now last_map.now last_routes.old) Routes
        (session_of w.now last_map.now last_routes.new) printed.new) }
    ensures kept { AreLastRoutes w.now.links.cables last_routes.new }
    ensures err { OnErr result (last_routes.new ≡ last_routes.old) }
    ensures unrefused { IfErr result
        (HidesNoRefusal (session_of w.now last_map.now last_routes.old) Routes w.now) }
{
    match complete(last_map) {
        Some(last) => keep_routes(alloc, w, last, last_routes, printed),
        None => one_line(printed, Line::NoMap, w.fabric()),
    }
}

// The text of the routes of a complete map, which are the last ones then.
#[tactic(auto, using(crate::proofs::ByCommand::routes_kept))]
fn keep_routes(
    alloc: Global,
    w: &World,
    last: &LastMade,
    last_routes: &mut Option<LastFound>,
    printed: &mut Printed,
) -> Result<(), OutOfMemory>
    requires right { WasKeptMap w.now.links.cables last.now }
    requires kept { AreLastRoutes w.now.links.cables last_routes.old }
    ensures told { OnOk result (AreRoutesTold w.now last.now last_routes.new printed.new) }
    ensures kept { AreLastRoutes w.now.links.cables last_routes.new }
    ensures err { OnErr result (last_routes.new ≡ last_routes.old) }
    ensures doing { IfErr result (λ e. e ≡ OutOfMemory.InDoing) }
{
    w.moment();
    let Ok(hosts) = hosts_of_map(alloc, &last.made, w.hosts()) else {
        return Err(OutOfMemory::InDoing);
    };
    let Ok(made) = make_routes(alloc, &last.made, w.fabric()) else {
        return Err(OutOfMemory::InDoing);
    };
    *last_routes = Some(LastFound {
        mapper: last.mapper,
        hosts,
        routes: made.set,
        began: last.began,
    });
    *printed = made.printed;
    Ok(())
}
