//! The walk of a set of routes from one host to another.
//!
//! ```text
//!   routes of hosts 0 to 3    0 1, 0 2, 0 3 | 1 0, 1 2, 1 3 | 2 0, 2 1, 2 3 | ..     2 to 1 stands at 2 * 3 + 1
//! ```

ghost use Rattle.std.specs.Prelude.{◌≡◌, Some, IfSome, option_copied};
ghost use Rattle.net_defs.specs.RouteSet.{AreRising};
ghost use Rattle.port_graph.specs.Routes.{walk_of, walk_at};

use net_defs::{Route, Walk};
use port_graph::RouteSet;

/// The walk from one host to another. Where each host up to the last sender has a route to each other, no search is
/// made.
pub fn walk_between(r: &RouteSet, from: u16, to: u16) -> Option<&Walk>
    ensures { option_copied result ≡ walk_of r.now from to }
{
    match likely_walk(r.list(), from, to) {
        Some(walk) => Some(walk),
        None => r.route(from, to),
    }
}

// The walk, if its route stands at its likely place.
fn likely_walk(routes: &[Route], from: u16, to: u16) -> Option<&Walk>
    requires { AreRising routes.now }
    ensures { IfSome (option_copied result) (λ w. walk_of routes.now from to ≡ Some w) }
{
    match routes.get(likely_place(routes, from, to)) {
        Some(r) => walk_if(r, from, to),
        None => None,
    }
}

// The place of a route where each host up to the last sender has one to each other.
fn likely_place(routes: &[Route], from: u16, to: u16) -> usize {
    let before = likely_before(routes, usize::from(from));
    if to > from {
        before.wrapping_add(usize::from(to - 1))
    } else {
        before.wrapping_add(usize::from(to))
    }
}

/// How many routes so many first hosts have, where each host up to the last sender has one to each other.
pub(crate) fn likely_before(routes: &[Route], hosts: usize) -> usize {
    match routes.last() {
        Some(last) => hosts.wrapping_mul(usize::from(last.from)),
        None => 0,
    }
}

// The walk of a route, if it goes from one host to another.
fn walk_if(r: &Route, from: u16, to: u16) -> Option<&Walk>
    ensures { option_copied result ≡ walk_at (Some r.now) from to }
{
    if r.from == from && r.to == to {
        Some(&r.walk)
    } else {
        None
    }
}
