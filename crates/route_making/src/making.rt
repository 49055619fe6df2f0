//! The routes of a map with their text.

ghost use Rattle.std.specs.Prelude.{◌≡◌, ◌≤◌, length, None, IfOk};
ghost use Rattle.map_defs.specs.NetMap.{IsConnected, switches_of};
ghost use Rattle.map_defs.specs.Orientation.{order_of};
ghost use Rattle.map_defs.specs.Routing.{AreRoutesOf};
ghost use Rattle.map_defs.specs.Ranks.{IsCertificate, ranks_of};
ghost use Rattle.rank_cert.specs.Checking.{first_fault};
ghost use Rattle.map_canon.specs.Printing.{AreOfFabric};
ghost use Rattle.run_defs.specs.Output.{lines};
ghost use Rattle.run_defs.specs.Run.{routes_lines};
ghost use Rattle.fab_report.specs.Printed.{printed_of};

use crate::printing::routes_text;
use fab_report::Printed;
use fabric_map::FabricMap;
use port_graph::{Fabric, RouteSet};
use rank_cert::{Ranks, certify};
use route_calc::routes;
use std::alloc::{AllocError, Global};
use updown::orient;

/// The routes of a map, and what is printed of them.
#[derive(Drop)]
pub struct MadeRoutes {
    /// The least legal route of each two hosts.
    pub set: RouteSet,
    /// Their lines, with the ranks.
    pub printed: Printed,
}

/// The routes of a connected map, whose hosts are hosts of a fabric: for each two the least legal one. They are
/// printed with the fabric's names. The ranks that are printed with them are a certificate (`certified`): each channel
/// of a route has one, and they rise along each route.
pub fn make_routes(alloc: Global, m: &FabricMap, f: &Fabric) -> Result<MadeRoutes, AllocError>
    requires connected { IsConnected m.now }
    requires few { length (switches_of m.now.vertices) ≤ 64 }
    requires hosts { AreOfFabric f.now m.now }
    ensures routes { IfOk result (λ made. AreRoutesOf m.now (order_of m.now) made.set) }
    ensures certified { IfOk result (λ made. IsCertificate m.now made.set (ranks_of m.now (order_of m.now))) }
    ensures faultless { IfOk result (λ made. first_fault m.now (ranks_of m.now (order_of m.now)) made.set ≡ None) }
    ensures text { IfOk result (λ made. made.printed ≡ printed_of f.now (lines (routes_lines m.now made.set))) }
{
    let (set, ranks) = certified_routes(alloc, m)?;
    let _ = f.hosts();
    let printed = routes_text(alloc, m, f, set.list(), ranks.list())?;
    Ok(MadeRoutes { set, printed })
}

// The routes of a map with their ranks. A check of both would find no fault, which is proved; so none is made.
fn certified_routes(alloc: Global, m: &FabricMap) -> Result<(RouteSet, Ranks), AllocError>
    requires connected { IsConnected m.now }
    requires few { length (switches_of m.now.vertices) ≤ 64 }
    ensures routes { IfOk result (λ made. AreRoutesOf m.now (order_of m.now) made.0) }
    ensures ranks { IfOk result (λ made. made.1 ≡ ranks_of m.now (order_of m.now)) }
    ensures certified { IfOk result (λ made. IsCertificate m.now made.0 made.1) }
    ensures faultless { IfOk result (λ made. first_fault m.now made.1 made.0 ≡ None) }
{
    let _ = m.vertices();
    let o = orient(alloc, m)?;
    let set = routes(alloc, m, &o)?;
    let ranks = certify(alloc, m, o.order())?;
    Ok((set, ranks))
}
