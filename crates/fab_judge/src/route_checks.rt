//! Where routes with their ranks fail first among the lines of their answer.

ghost use Rattle.std.specs.Prelude.{◌≡◌, ◌↔◌, ◌≤◌, ◌<◌, ◌+◌, true, length, IfSome};
ghost use Rattle.std.specs.List.{list_all};
ghost use Rattle.answer_defs.specs.Right.{AreWhole};
ghost use Rattle.fab_judge.specs.Checks.{FindsFault, AreRight, is_between, leads_between, astray_from};

use crate::whole::are_whole;
use answer_defs::Why;
use fabric_map::FabricMap;
use port_graph::{Route, RouteSet};
use rank_cert::{Ranks, check, leads};

/// Where routes with their ranks fail first among the lines of their answer, and what fails there. It takes no memory.
///
/// Two hosts of the map without a route fail at the first line, a route that leads astray at its own, and ranks that
/// don't rise at the last: a later route astray comes before an earlier rank that falls.
pub fn routes_fault(map: &FabricMap, routes: &RouteSet, ranks: &Ranks) -> Option<(usize, Why)>
    // None exactly where all holds.
    ensures fault { FindsFault map.now routes.now ranks.now result }
    ensures within { IfSome result (λ p. p.0 ≤ length routes.now + length ranks.now + 1) }
{
    if are_whole(map, routes) {
        fault_of_whole(map, routes, ranks)
    } else {
        Some((0, Why::Route))
    }
}

// The same where each two different hosts have a route.
fn fault_of_whole(map: &FabricMap, routes: &RouteSet, ranks: &Ranks) -> Option<(usize, Why)>
    requires { AreWhole map.now routes.now }
    ensures fault { FindsFault map.now routes.now ranks.now result }
    ensures within { IfSome result (λ p. p.0 ≤ length routes.now + length ranks.now + 1) }
{
    if are_right(map, routes, ranks) {
        None
    } else {
        fault_of_wrong(map, routes, ranks)
    }
}

// Whether each route leads from one host of the map to another, and the ranks rise along it. Each is followed once.
fn are_right(map: &FabricMap, routes: &RouteSet, ranks: &Ranks) -> bool
    ensures { (result ≡ true) ↔ AreRight map.now routes.now ranks.now }
{
    if are_between(routes.list()) {
        match check(map, routes, ranks) {
            Ok(()) => true,
            Err(_) => false,
        }
    } else {
        false
    }
}

// Whether each route is between two hosts.
fn are_between(routes: &[Route]) -> bool
    ensures { result ≡ list_all is_between routes.now }
{
    routes.iter().all(|r| r.from != r.to)
}

// The same where a route leads astray, or the ranks don't rise.
fn fault_of_wrong(map: &FabricMap, routes: &RouteSet, ranks: &Ranks) -> Option<(usize, Why)>
    requires whole { AreWhole map.now routes.now }
    requires wrong { ¬ AreRight map.now routes.now ranks.now }
    ensures fault { FindsFault map.now routes.now ranks.now result }
    ensures within { IfSome result (λ p. p.0 ≤ length routes.now + length ranks.now + 1) }
{
    match first_astray(map, routes.list()) {
        Some(place) => Some((place + 1, Why::Route)),
        None => Some((last_place(routes, ranks), Why::Rank)),
    }
}

// The place of the last line of an answer.
fn last_place(routes: &RouteSet, ranks: &Ranks) -> usize
    ensures { result ≡ length routes.now + length ranks.now + 1 }
{
    routes.list().len() + ranks.list().len() + 1
}

// The place of the first route that doesn't lead from one host of the map to another.
fn first_astray(map: &FabricMap, routes: &[Route]) -> Option<usize>
    ensures first { result ≡ astray_from map.now 0 routes.now }
    ensures there { IfSome result (λ place. place < length routes.now) }
{
    for place in 0..routes.len() {
        if !leads_between(map, &routes[place]) {
            return Some(place);
        }
    }
    None
}

// Whether a route leads from one host of the map to another.
fn leads_between(map: &FabricMap, route: &Route) -> bool
    ensures { result ≡ leads_between map.now route.now }
{
    route.from != route.to && leads(map, route)
}
