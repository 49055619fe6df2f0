//! The walk to a host by that to another at its switch: it has another last turn, and else the same.
//!
//! ```text
//!       a   b         From whatever x, the last turn of the least legal walk to b is 2 more than that of the one to a.
//!     3  \ /  5
//!   x ..  s
//! ```

ghost use Rattle.std.specs.Prelude.{◌≡◌, ◌<◌, ◌+ℤ◌, ◌-ℤ◌, ◌-◌, length, true, Some, All, IfOk, IfSome};
ghost use Rattle.std.specs.Prelude.{option_copied, slice_get};
ghost use Rattle.std.specs.List.{list_all};
ghost use Rattle.net_defs.specs.Turn.{IsTurn, is_turn};
ghost use Rattle.map_defs.specs.Orientation.{order_of};
ghost use Rattle.map_defs.specs.Routing.{IsLeastLegal};
ghost use Rattle.port_graph.specs.Routes.{walk_at};
ghost use Rattle.route_calc.specs.Adding.{IsLastLeast};
ghost use Rattle.route_calc.specs.Beside.{hang_at_one, ports_apart, turns_moved};
ghost use Rattle.route_calc.specs.Hosts.{AreWaysOf};

use crate::distances::is_switch;
use crate::entered::Entered;
use crate::ways::Ways;
use fabric_map::FabricMap;
use port_graph::{Route, Walk};
use std::alloc::{AllocError, Global};

/// The least legal walk to a host, by the last of these routes: where that leads from the same sender to this other
/// host, which hangs at the same switch.
pub(crate) fn shared_walk(
    alloc: Global,
    m: &FabricMap,
    routes: &[Route],
    from: &Ways,
    other: Option<&Ways>,
    to: &Ways,
) -> Result<Option<Walk>, AllocError>
    requires from { AreWaysOf m.now (order_of m.now) from.now }
    requires other { IfSome (option_copied other) (AreWaysOf m.now (order_of m.now)) }
    requires to { AreWaysOf m.now (order_of m.now) to.now }
    requires last { IsLastLeast m.now (order_of m.now) from.now.host routes.now }
    ensures { IfOk result (λ w. IfSome w (IsLeastLegal m.now (order_of m.now) from.now.host to.now.host)) }
{
    match other {
        None => Ok(None),
        Some(other) => {
            let sender = from.host();
            let receiver = other.host();
            let walk = last_walk(routes, sender, receiver);
            walk_beside(alloc, m, walk, from, other, to)
        }
    }
}

// The same by the walk to the other host, if there is one.
fn walk_beside(
    alloc: Global,
    m: &FabricMap,
    walk: Option<&Walk>,
    from: &Ways,
    other: &Ways,
    to: &Ways,
) -> Result<Option<Walk>, AllocError>
    requires from { AreWaysOf m.now (order_of m.now) from.now }
    requires other { AreWaysOf m.now (order_of m.now) other.now }
    requires to { AreWaysOf m.now (order_of m.now) to.now }
    requires walk { IfSome (option_copied walk)
        (IsLeastLegal m.now (order_of m.now) from.now.host other.now.host) }
    ensures { IfOk result (λ w. IfSome w (IsLeastLegal m.now (order_of m.now) from.now.host to.now.host)) }
{
    let _ = m.vertices();
    match walk {
        None => Ok(None),
        Some(walk) => match ports_apart(m, other, to) {
            None => Ok(None),
            Some(more) => Ok(Some(moved(alloc, walk, more)?)),
        },
    }
}

// The walk of the last route, if it leads from one host to another.
fn last_walk(routes: &[Route], from: u16, to: u16) -> Option<&Walk>
    ensures { option_copied result ≡ walk_at (slice_get routes.now (length routes.now - 1)) from to }
{
    match routes.last() {
        None => None,
        Some(r) => {
            if r.from == from && r.to == to {
                Some(&r.walk)
            } else {
                None
            }
        }
    }
}

// How much greater the port is that leads to the second of two hosts, if both hang at one switch.
fn ports_apart(m: &FabricMap, first: &Ways, second: &Ways) -> Option<i8>
    requires first { AreWaysOf m.now (order_of m.now) first.now }
    requires second { AreWaysOf m.now (order_of m.now) second.now }
    ensures { result ≡ ports_apart m.now first.now.start second.now.start }
{
    let _ = m.vertices();
    match first.start() {
        None => None,
        Some(p) => match second.start() {
            None => None,
            Some(q) => apart(m, p, q),
        },
    }
}

// The same by where their cables lead.
fn apart(m: &FabricMap, p: Entered, q: Entered) -> Option<i8>
    requires first { IsTurn p.port }
    requires second { IsTurn q.port }
    ensures { result ≡ ports_apart m.now (Some p) (Some q) }
{
    if hang_at_one(m, p, q) {
        Some(difference(p.port, q.port))
    } else {
        None
    }
}

// Whether two hosts hang at one switch, by where their cables lead.
fn hang_at_one(m: &FabricMap, p: Entered, q: Entered) -> bool
    ensures { result ≡ hang_at_one m.now p q }
{
    p.v == q.v && (is_switch(m, p.v) && (!p.down && !q.down))
}

// How much greater the second port is.
fn difference(p: i8, q: i8) -> i8
    requires first { IsTurn p }
    requires second { IsTurn q }
    ensures { result ≡ q -ℤ p }
{
    q - p
}

// The walk with so much more at its last turn.
fn moved(alloc: Global, walk: &Walk, more: i8) -> Result<Walk, AllocError>
    requires some { 0 < length walk.now }
    requires turns { list_all is_turn (turns_moved more walk.now) ≡ true }
    ensures { IfOk result (λ w. w ≡ turns_moved more walk.now) }
{
    let last = last_turn(walk.turns());
    let turn = turned(last, more);
    let mut walk = walk.copied(alloc)?;
    walk.turn_last(turn);
    Ok(walk)
}

// The last of some turns.
fn last_turn(turns: &[i8]) -> i8
    requires some { 0 < length turns.now }
    requires range { All IsTurn turns.now }
    ensures last { slice_get turns.now (length turns.now - 1) ≡ Some result }
    ensures range { IsTurn result }
{
    turns[turns.len() - 1]
}

// A turn and so much more.
fn turned(turn: i8, more: i8) -> i8
    requires turn { IsTurn turn }
    requires sum { IsTurn (turn +ℤ more) }
    ensures { result ≡ turn +ℤ more }
{
    turn + more
}
