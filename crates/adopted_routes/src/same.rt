//! Whether two sets of routes are the same.

ghost use Rattle.std.specs.Prelude.{◌≡◌};
ghost use Rattle.net_defs.specs.Turn.{same_turns};
ghost use Rattle.net_defs.specs.RouteSet.{same_route, same_routes};

use net_defs::{Route, Walk};

/// Whether two sets are the same routes in the same order.
pub(crate) fn are_same(routes: &[Route], others: &[Route]) -> bool
    ensures { result ≡ same_routes routes.now others.now }
{
    if routes.len() != others.len() {
        return false;
    }
    for i in 0..routes.len() {
        if !is_same(&routes[i], &others[i]) {
            return false;
        }
    }
    true
}

// Whether two routes are of the same hosts, with the same turns.
fn is_same(route: &Route, other: &Route) -> bool
    ensures { result ≡ same_route route.now other.now }
{
    route.from == other.from && route.to == other.to && have_same_turns(&route.walk, &other.walk)
}

// Whether two walks are of the same turns.
fn have_same_turns(walk: &Walk, other: &Walk) -> bool
    ensures { result ≡ same_turns walk.now other.now }
{
    walk.turns() == other.turns()
}
