//! The routes of all hosts.

ghost use Rattle.std.specs.Prelude.{◌≡◌, ◌≢◌, ℕ, pos, ◌<◌, ◌≤◌, ◌++◌, ◌∷◌, [], length, take, true, None, Some, IfOk};
ghost use Rattle.std.specs.Prelude.{IfSome, OnOk, option_copied};
ghost use Rattle.std.specs.List.{AllByRecursion, list_all};
ghost use Rattle.net_defs.specs.Turn.{IsTurn, is_turn, walk_refusal};
ghost use Rattle.map_defs.specs.NetMap.{IsConnected, host_of_vertex, switches_of};
ghost use Rattle.map_defs.specs.Orientation.{order_of};
ghost use Rattle.map_defs.specs.Routing.{IsLeastLegal, AreRoutesOf, vertex_of_host};
ghost use Rattle.updown.specs.Oriented.{orientation_of};
ghost use Rattle.port_graph.specs.Routes.{push_refusal};
ghost use Rattle.route_calc.specs.Adding.{AddsRoutes, IsLastLeast};
ghost use Rattle.route_calc.specs.Exits.{all_exits};
ghost use Rattle.route_calc.specs.Hosts.{AreWaysOf, AreAllWays, AreRisingHosts, ways_before};
ghost use Rattle.route_calc.specs.Far.{far_at};
ghost use Rattle.route_calc.specs.Lowering.{AreNumbered};
ghost use Rattle.route_calc.specs.Ways.{IsDistance, entered_by};

use crate::beside::ways_beside;
use crate::entered::Entered;
use crate::exits::{Exits, all_exits};
use crate::numbering::are_numbered;
use crate::shared::shared_walk;
use crate::ways::Ways;
use fabric_map::{FabricMap, MapVertex};
use net_defs::{FEW_TURNS, WalkFault};
use port_graph::{Route, RoutePush, RouteSet, Walk};
use std::alloc::{AllocError, Global};
use updown::Orientation;

// The most turns of a walk.
const MAX_TURNS: usize = 64;

/// One route for each ordered pair of different hosts: the least legal one, by length, then turn by turn.
pub fn routes(alloc: Global, m: &FabricMap, o: &Orientation) -> Result<RouteSet, AllocError>
    requires oriented { o.now ≡ orientation_of m.now }
    requires connected { IsConnected m.now }
    requires few { length (switches_of m.now.vertices) ≤ 64 }
    ensures { IfOk result (λ set. AreRoutesOf m.now (order_of m.now) set) }
{
    let exits = all_exits(alloc, m, o)?;
    let ways = all_ways(alloc, m, o, &exits)?;
    let mut set = RouteSet::new(alloc);
    for from in &ways {
        add_routes(alloc, m, &exits, from, &ways, &mut set)?;
    }
    let _ = set.list();
    Ok(set)
}

// The ways to each host, by address.
fn all_ways(
    alloc: Global,
    m: &FabricMap,
    o: &Orientation,
    exits: &[Exits],
) -> Result<Vec<Ways>, AllocError>
    requires oriented { o.now ≡ orientation_of m.now }
    requires exits { exits.now ≡ all_exits m.now (order_of m.now) }
    ensures { IfOk result (λ ws. AreAllWays m.now (order_of m.now) ws.items) }
{
    let numbered = are_numbered(m, exits);
    let mut ways = Vec::new(alloc);
    for a in 0..usize::from(greatest_address(m)) + 1 {
        if let Some(vertex) = m.vertex_of_host(a as u16) {
            let way = next_ways(alloc, m, o, exits, numbered, &ways, (a as u16, vertex))?;
            ways.push(way)?;
        }
    }
    Ok(ways)
}

// The ways to a host and its vertex: by those to the last of other hosts, where both hang at one switch.
fn next_ways(
    alloc: Global,
    m: &FabricMap,
    o: &Orientation,
    exits: &[Exits],
    numbered: bool,
    others: &[Ways],
    host: (u16, u32),
) -> Result<Ways, AllocError>
    requires oriented { o.now ≡ orientation_of m.now }
    requires exits { exits.now ≡ all_exits m.now (order_of m.now) }
    requires numbered { numbered ≡ true → AreNumbered m.now (order_of m.now) }
    requires others { AllByRecursion (AreWaysOf m.now (order_of m.now)) others.now }
    requires host { vertex_of_host m.now host.0 ≡ Some host.1 }
    ensures ways { IfOk result (λ w. AreWaysOf m.now (order_of m.now) w) }
    ensures host { IfOk result (λ w. w.host ≡ host.0) }
{
    match last_moved(alloc, m, o, exits, others, host)? {
        Some(way) => Ok(way),
        None => found_ways(alloc, m, o, exits, numbered, host),
    }
}

// The ways to a host by those to the last of others, if both hang at one switch.
fn last_moved(
    alloc: Global,
    m: &FabricMap,
    o: &Orientation,
    exits: &[Exits],
    others: &[Ways],
    host: (u16, u32),
) -> Result<Option<Ways>, AllocError>
    requires oriented { o.now ≡ orientation_of m.now }
    requires exits { exits.now ≡ all_exits m.now (order_of m.now) }
    requires others { AllByRecursion (AreWaysOf m.now (order_of m.now)) others.now }
    requires host { vertex_of_host m.now host.0 ≡ Some host.1 }
    ensures ways { IfOk result (λ w. IfSome w (AreWaysOf m.now (order_of m.now))) }
    ensures host { IfOk result (λ w. IfSome w (λ w. w.host ≡ host.0)) }
{
    match others.last() {
        Some(from) => ways_beside(alloc, m, o, exits, from, host),
        None => Ok(None),
    }
}

// The ways to a host, without those to another.
fn found_ways(
    alloc: Global,
    m: &FabricMap,
    o: &Orientation,
    exits: &[Exits],
    numbered: bool,
    host: (u16, u32),
) -> Result<Ways, AllocError>
    requires oriented { o.now ≡ orientation_of m.now }
    requires exits { exits.now ≡ all_exits m.now (order_of m.now) }
    requires numbered { numbered ≡ true → AreNumbered m.now (order_of m.now) }
    requires host { vertex_of_host m.now host.0 ≡ Some host.1 }
    ensures ways { IfOk result (λ w. AreWaysOf m.now (order_of m.now) w) }
    ensures host { IfOk result (λ w. w.host ≡ host.0) }
{
    let way = Ways::to(alloc, m, o, exits, numbered, host.0, host.1)?;
    Ok(way)
}

// The greatest address of a host, or 0.
fn greatest_address(m: &FabricMap) -> u16
    ensures { (v h : ℕ) → host_of_vertex m.now v ≡ Some h → h ≤ result }
{
    let mut greatest = 0;
    for v in m.vertices() {
        if let MapVertex::Host(h) = v {
            if greatest < *h {
                greatest = *h;
            }
        }
    }
    greatest
}

// Adds the routes from one host. It is called once a host, and has its loop's values in registers out of its caller.
#[inline(never)]
fn add_routes(
    alloc: Global,
    m: &FabricMap,
    exits: &[Exits],
    from: &Ways,
    ways: &[Ways],
    set: &mut RouteSet,
) -> Result<(), AllocError>
    requires exits { exits.now ≡ all_exits m.now (order_of m.now) }
    requires connected { IsConnected m.now }
    requires few { length (switches_of m.now.vertices) ≤ 64 }
    requires from { AreWaysOf m.now (order_of m.now) from.now }
    requires to { AllByRecursion (AreWaysOf m.now (order_of m.now)) ways.now }
    requires rising { AreRisingHosts ways.now }
    requires before { AllByRecursion (λ r. r.from < from.now.host) set.old }
    ensures { OnOk result (AddsRoutes m.now (order_of m.now) from.now.host ways.now (length ways.now) set.old set.new) }
{
    let a = from.host();
    let mut turns = Vec::with_capacity(alloc, MAX_TURNS)?;
    for k in 0..ways.len() {
        let to = &ways[k];
        let b = to.host();
        if a != b {
            let other = ways_before(ways, k);
            let walk = next_walk(alloc, m, exits, set.list(), from, other, to, &mut turns)?;
            add_route(
                Route {
                    from: a,
                    to: b,
                    walk,
                },
                set,
            )?;
        }
    }
    Ok(())
}

// Adds a route that stands above the others.
fn add_route(r: Route, set: &mut RouteSet) -> Result<(), AllocError>
    requires { push_refusal set.old r ≡ None }
    ensures { OnOk result (set.new ≡ set.old ++ r ∷ []) }
{
    match set.push(r) {
        Ok(()) => Ok(()),
        Err((_, RoutePush::NoMemory)) => Err(AllocError),
        Err((_, RoutePush::Order)) => unreachable!(),
    }
}

// The least legal walk from a host to another: by the last of these routes where that can be, and else turn by turn.
fn next_walk(
    alloc: Global,
    m: &FabricMap,
    exits: &[Exits],
    routes: &[Route],
    from: &Ways,
    other: Option<&Ways>,
    to: &Ways,
    turns: &mut Vec<i8>,
) -> Result<Walk, AllocError>
    requires exits { exits.now ≡ all_exits m.now (order_of m.now) }
    requires connected { IsConnected m.now }
    requires few { length (switches_of m.now.vertices) ≤ 64 }
    requires last { IsLastLeast m.now (order_of m.now) from.now.host routes.now }
    requires from { AreWaysOf m.now (order_of m.now) from.now }
    requires other { IfSome (option_copied other) (AreWaysOf m.now (order_of m.now)) }
    requires to { AreWaysOf m.now (order_of m.now) to.now }
    requires differ { from.now.host ≢ to.now.host }
    ensures { IfOk result (λ w. IsLeastLegal m.now (order_of m.now) from.now.host to.now.host w) }
{
    match shared_walk(alloc, m, routes, from, other, to)? {
        Some(walk) => Ok(walk),
        None => least_walk(alloc, m, exits, from, to, turns),
    }
}

// The ways before those at a place.
fn ways_before(ways: &[Ways], k: usize) -> Option<&Ways>
    requires { k < length ways.now }
    ensures { option_copied result ≡ ways_before ways.now k }
{
    if k == 0 { None } else { Some(&ways[k - 1]) }
}

// The least legal walk from a host to another. Its turns are put together in a list that serves for many walks.
fn least_walk(
    alloc: Global,
    m: &FabricMap,
    exits: &[Exits],
    from: &Ways,
    to: &Ways,
    turns: &mut Vec<i8>,
) -> Result<Walk, AllocError>
    requires exits { exits.now ≡ all_exits m.now (order_of m.now) }
    requires connected { IsConnected m.now }
    requires few { length (switches_of m.now.vertices) ≤ 64 }
    requires from { AreWaysOf m.now (order_of m.now) from.now }
    requires to { AreWaysOf m.now (order_of m.now) to.now }
    requires differ { from.now.host ≢ to.now.host }
    ensures { IfOk result (λ w. IsLeastLegal m.now (order_of m.now) from.now.host to.now.host w) }
{
    let _ = m.vertices();
    let (start, count) = least_start(m, from, to);
    to.turns(exits, start, count, turns)?;
    walk_of(alloc, turns)
}

// The walk of turns that are one. Few of them take no memory.
fn walk_of(alloc: Global, turns: &[i8]) -> Result<Walk, AllocError>
    requires { walk_refusal turns.now ≡ None }
    ensures { IfOk result (λ w. w ≡ turns.now) }
{
    if turns.len() <= FEW_TURNS {
        Ok(few_walk(turns))
    } else {
        long_walk(alloc, turns)
    }
}

// The walk of few turns.
fn few_walk(turns: &[i8]) -> Walk
    requires few { length turns.now ≤ 14 }
    requires walk { walk_refusal turns.now ≡ None }
    ensures { result ≡ turns.now }
{
    let places = few_places(turns);
    Walk::of_few(turns.len() as u8, places)
}

// Few turns of a walk in places, in range.
fn few_places(turns: &[i8]) -> [i8; FEW_TURNS]
    requires few { length turns.now ≤ 14 }
    requires walk { walk_refusal turns.now ≡ None }
    ensures turns { take (length turns.now) result ≡ turns.now }
    ensures in_range { list_all is_turn (take (length turns.now) result) ≡ true }
{
    places_of(turns)
}

// Few turns in places.
fn places_of(turns: &[i8]) -> [i8; FEW_TURNS]
    requires { length turns.now ≤ 14 }
    ensures { take (length turns.now) result ≡ turns.now }
{
    let mut places = [0; FEW_TURNS];
    places[..turns.len()].copy_from_slice(turns);
    places
}

// The walk of any number of turns.
fn long_walk(alloc: Global, turns: &[i8]) -> Result<Walk, AllocError>
    requires { walk_refusal turns.now ≡ None }
    ensures { IfOk result (λ w. w ≡ turns.now) }
{
    match Walk::new(alloc, turns) {
        Ok(walk) => Ok(walk),
        Err(WalkFault::NoMemory) => Err(AllocError),
        Err(WalkFault::TooLong) => unreachable!(),
        Err(WalkFault::TurnRange) => unreachable!(),
    }
}

// Where a host's cable leads, and how many channels are left from there.
fn least_start(m: &FabricMap, from: &Ways, to: &Ways) -> (Entered, u8)
    requires connected { IsConnected m.now }
    requires few { length (switches_of m.now.vertices) ≤ 64 }
    requires from { AreWaysOf m.now (order_of m.now) from.now }
    requires to { AreWaysOf m.now (order_of m.now) to.now }
    requires differ { from.now.host ≢ to.now.host }
    ensures start { entered_by m.now (order_of m.now) record { v = from.now.vertex; p = pos 0 } ≡ Some result.0 }
    ensures port { IsTurn result.0.port }
    ensures distance { IsDistance m.now (order_of m.now) to.now.vertex result.1 result.0.v result.0.down }
    ensures far { far_at to.now.far result.0.v result.0.down ≡ result.1 }
    ensures few { result.1 < 255 }
{
    let _ = m.vertices();
    match from.start() {
        None => unreachable!(),
        Some(start) => (start, to.distance(start.v, start.down)),
    }
}
