//! The check of routes against ranks.

ghost use Rattle.std.specs.Prelude.{◌≡◌, ◌↔◌, [], IsOk, IfOk, IfErr, OnOk, if◌then◌else◌, Option, Some, None, All};
ghost use Rattle.std.specs.List.{AllByRecursion};
ghost use Rattle.net_defs.specs.Turn.{IsTurn};
ghost use Rattle.map_defs.specs.Routing.{LeadsTo, channels_on, led_to};
ghost use Rattle.fabric_map.specs.Table.{far_pair};
ghost use Rattle.net_defs.specs.Dependencies.{IsBefore, HasNoCycle};
ghost use Rattle.map_defs.specs.Ranks.{IsCertificate, channels_of_routes};
ghost use Rattle.rank_cert.specs.Checking.{first_fault, route_fault, fault_along, fault_at, fault_by, leads, are_one};
ghost use Rattle.rank_cert.specs.Checking.{rank_after, ranked_by, Tells, AreOfOneOrder};
ghost use Rattle.rank_cert.specs.Crossing.{AreCrossings};
ghost use Rattle.rank_cert.specs.Following.{unpair, channels_after, port_of_pair};

use crate::crossings::{Crossing, are_crossings};
use crate::fault::CheckFault;
use crate::following::{far_of, led_to, next_by, port_of_host};
use crate::ranks::Ranks;
use crate::rising::is_faultless;
use fabric_map::FabricMap;
use port_graph::{Route, RouteSet};

/// Checks that each route leads to its host, and that the ranks rise along it. The first route that fails is named:
/// that it leads elsewhere before the faults of its channels, and these in their order.
///
/// After `Ok` the routes contain no cyclic wait, however long. The routes and the ranks of a map by one order are
/// always `Ok`. It takes no memory.
pub fn check(m: &FabricMap, r: &RouteSet, k: &Ranks) -> Result<(), CheckFault>
    ensures fault { Tells (first_fault m.now k.now r.now) result }
    ensures certified { IsOk result ↔ (AllByRecursion (λ s. LeadsTo m.now s.from s.to s.walk) r.now
        × IsCertificate m.now r.now k.now) }
    ensures of_one_order { AreOfOneOrder m.now r.now k.now → IsOk result }
    ensures no_cycle { OnOk result (HasNoCycle (IsBefore (channels_of_routes m.now r.now))) }
{
    let _ = m.vertices();
    match routes_fault(m, r.list(), k) {
        None => Ok(()),
        Some(fault) => Err(fault),
    }
}

// The fault of the first route that has one.
fn routes_fault(m: &FabricMap, routes: &[Route], k: &Ranks) -> Option<CheckFault>
    ensures { result ≡ first_fault m.now k.now routes.now }
{
    let table = k.crossings();
    if are_crossings(m, k, table) {
        fault_among(m, table, routes, k)
    } else {
        fault_among(m, &[], routes, k)
    }
}

// The same, by the channels that have ranks.
fn fault_among(
    m: &FabricMap,
    table: &[Option<Crossing>],
    routes: &[Route],
    k: &Ranks,
) -> Option<CheckFault>
    requires { AreCrossings m.now k.now table.now }
    ensures { result ≡ first_fault m.now k.now routes.now }
{
    for r in routes {
        let fault = fault_unless_shown(m, table, r, k);
        if fault.is_some() {
            return fault;
        }
    }
    None
}

// The first fault of a route. Where the table shows that there is none, the route isn't followed port by port.
fn fault_unless_shown(
    m: &FabricMap,
    table: &[Option<Crossing>],
    r: &Route,
    k: &Ranks,
) -> Option<CheckFault>
    requires { AreCrossings m.now k.now table.now }
    ensures { result ≡ route_fault m.now k.now r.now }
{
    if is_faultless(m, table, r) {
        None
    } else {
        route_fault(m, r, k)
    }
}

// The first fault of a route.
fn route_fault(m: &FabricMap, r: &Route, k: &Ranks) -> Option<CheckFault>
    ensures { result ≡ route_fault m.now k.now r.now }
{
    match walked(m, port_of_host(m, r.from), r.walk.turns(), k) {
        Ok(end) => fault_unless(are_one(end, port_of_host(m, r.to)), r, None),
        Err(fault) => fault_unless(leads(m, r), r, Some(fault)),
    }
}

// The fault of the channels of a route that leads to its host, and else that it doesn't.
fn fault_unless(leads: bool, r: &Route, along: Option<CheckFault>) -> Option<CheckFault>
    ensures { result ≡ (if leads then along else Some (CheckFault.BadRoute r.now.from r.now.to)) }
{
    if leads {
        along
    } else {
        Some(CheckFault::BadRoute {
            from: r.from,
            to: r.to,
        })
    }
}

/// Whether a route leads to its host: its turns, walked over the map from the host that sends, end at the one port of
/// the host that is to receive. A route of a host that the map lacks leads nowhere.
pub fn leads(m: &FabricMap, r: &Route) -> bool
    ensures { result ≡ leads m.now r.now }
{
    let end = led_to(m, port_of_host(m, r.from), r.walk.turns());
    are_one(end, port_of_host(m, r.to))
}

// Whether two ports are there, and are one.
fn are_one(d: Option<(u32, i8)>, e: Option<(u32, i8)>) -> bool
    ensures { result ≡ are_one (unpair d) (unpair e) }
{
    match d {
        None => false,
        Some(d) => match e {
            None => false,
            Some(e) => d.0 == e.0 && d.1 == e.1,
        },
    }
}

// The port that is entered last, from a port to leave by on, or the first fault along the channels.
fn walked(
    m: &FabricMap,
    start: Option<(u32, i8)>,
    turns: &[i8],
    k: &Ranks,
) -> Result<Option<(u32, i8)>, CheckFault>
    requires { All IsTurn turns.now }
    ensures end { IfOk result (λ end. end ≡ far_pair (led_to m.now (unpair start) turns.now)) }
    ensures none { IfOk result (λ _. fault_along k.now None (channels_on m.now (unpair start) turns.now) ≡ None) }
    ensures fault { IfErr result (λ f. fault_along k.now None (channels_on m.now (unpair start) turns.now) ≡ Some f) }
{
    let mut at = start;
    let mut before = None;
    for turn in turns {
        let far = far_of(m, at);
        let rank = rank_at(at, k);
        match fault_at(m, before, at, far, rank) {
            None => {}
            Some(fault) => return Err(fault),
        }
        before = ranked(at, rank);
        at = next_by(m, at, far, *turn);
    }
    let end = far_of(m, at);
    match fault_at(m, before, at, end, rank_at(at, k)) {
        None => Ok(end),
        Some(last) => Err(last),
    }
}

// The rank of the channel that leaves by a port.
fn rank_at(at: Option<(u32, i8)>, k: &Ranks) -> Option<u64>
    ensures { result ≡ rank_after k.now (unpair at) }
{
    match at {
        None => None,
        Some((v, p)) => k.rank_of(v, p),
    }
}

// The fault of the channel that leaves by a port, if one does, with its rank, after the channel before it. One does
// where there is a far end.
fn fault_at(
    m: &FabricMap,
    before: Option<((u32, i8), u64)>,
    at: Option<(u32, i8)>,
    far: Option<(u32, i8)>,
    rank: Option<u64>,
) -> Option<CheckFault>
    requires { far ≡ far_pair (led_to m.now (unpair at) []) }
    ensures { result ≡ fault_by before (channels_after m.now (unpair at)) rank }
{
    let _ = m;
    match at {
        None => None,
        Some((v, p)) => match far {
            None => None,
            Some(_) => fault_of(before, (v, p), rank),
        },
    }
}

// The fault of a channel with its rank, after the channel before it.
fn fault_of(before: Option<((u32, i8), u64)>, d: (u32, i8), rank: Option<u64>) -> Option<CheckFault>
    ensures { result ≡ fault_at before (port_of_pair d) rank }
{
    match rank {
        None => Some(CheckFault::NoRank { v: d.0, p: d.1 }),
        Some(rank_d) => match before {
            None => None,
            Some((c, rank_c)) => {
                if rank_c < rank_d {
                    None
                } else {
                    Some(CheckFault::BadRank {
                        c,
                        d,
                        rank_c,
                        rank_d,
                    })
                }
            }
        },
    }
}

// The channel of a port with its rank, if it has one.
fn ranked(at: Option<(u32, i8)>, rank: Option<u64>) -> Option<((u32, i8), u64)>
    ensures { result ≡ ranked_by (unpair at) rank }
{
    match at {
        None => None,
        Some((v, p)) => match rank {
            None => None,
            Some(rank) => Some(((v, p), rank)),
        },
    }
}
