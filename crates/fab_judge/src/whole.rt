//! Whether each two hosts of a map have a route.

ghost use Rattle.std.specs.Prelude.{◌≡◌, ◌↔◌, true, is_some};
ghost use Rattle.std.specs.List.{list_all};
ghost use Rattle.port_graph.specs.Routes.{walk_of};
ghost use Rattle.answer_defs.specs.Right.{AreWhole};
ghost use Rattle.fab_judge.specs.Checks.{reaches, reaches_all};

use fabric_map::{FabricMap, MapVertex};
use port_graph::RouteSet;

/// Whether each two different hosts of a map have a route. The first two that have none end the search.
pub(crate) fn are_whole(map: &FabricMap, routes: &RouteSet) -> bool
    ensures { (result ≡ true) ↔ AreWhole map.now routes.now }
{
    all_reach_all(routes, map.vertices())
}

// Whether a route leads from each host among these vertices to each other.
fn all_reach_all(routes: &RouteSet, vertices: &[MapVertex]) -> bool
    ensures { result ≡ list_all (reaches_all routes.now vertices.now) vertices.now }
{
    for from in vertices {
        if !reaches_all(routes, vertices, *from) {
            return false;
        }
    }
    true
}

// Whether a route leads from a vertex, unless it is a switch, to each other host among these.
fn reaches_all(routes: &RouteSet, vertices: &[MapVertex], from: MapVertex) -> bool
    ensures { result ≡ reaches_all routes.now vertices.now from }
{
    match from {
        MapVertex::Host(a) => host_reaches_all(routes, vertices, a),
        MapVertex::Switch(_) => true,
    }
}

// The same of a host.
fn host_reaches_all(routes: &RouteSet, vertices: &[MapVertex], a: u16) -> bool
    ensures { result ≡ list_all (reaches routes.now a) vertices.now }
{
    for to in vertices {
        if !reaches(routes, a, *to) {
            return false;
        }
    }
    true
}

// Whether a route leads from a host to a vertex, unless that is a switch or the host itself.
fn reaches(routes: &RouteSet, a: u16, to: MapVertex) -> bool
    ensures { result ≡ reaches routes.now a to }
{
    match to {
        MapVertex::Host(b) => a == b || has_route(routes, a, b),
        MapVertex::Switch(_) => true,
    }
}

// Whether there is a route from one host to another.
fn has_route(routes: &RouteSet, a: u16, b: u16) -> bool
    ensures { result ≡ is_some (walk_of routes.now a b) }
{
    routes.route(a, b).is_some()
}
