//! The adopted routes that cross a cable pulled since the adoption.
//!
//! Each led to its host in the fabric as it stood then. So it crosses such a cable exactly where its walk is stuck over
//! what is left of that fabric: the cables in place that aren't new. No table of that time is kept.

ghost use Rattle.std.specs.Prelude.{◌≡◌, IfOk};
ghost use Rattle.net_defs.specs.Network.{far};
ghost use Rattle.net_defs.specs.Route.{host_port, exit_at, turned, entered_after};
ghost use Rattle.world_defs.specs.History.{fabric_left};
ghost use Rattle.fab_remap.specs.Remap.{broken_pairs, is_stuck, stuck_pairs};

use crate::pairs::PairList;
use fab_world::World;
use net_defs::{End, Route, Vertex, leaving_port};
use std::alloc::{AllocError, Global};

/// The adopted routes that cross a cable pulled since the adoption, in their order, each by its sender and its
/// receiver. None where no routes are adopted.
pub fn broken(alloc: Global, w: &World) -> Result<PairList, AllocError>
    ensures { IfOk result (λ pairs. pairs ≡ broken_pairs w.now) }
{
    w.reached();
    match w.adopted() {
        Some(set) => stuck_pairs(alloc, w, set.list()),
        None => Ok(PairList::new(Vec::new(alloc))),
    }
}

// The routes of a list that are stuck over what is left of the fabric.
fn stuck_pairs(alloc: Global, w: &World, routes: &[Route]) -> Result<PairList, AllocError>
    ensures { IfOk result (λ pairs. pairs ≡ stuck_pairs w.now routes.now) }
{
    let mut pairs = Vec::new(alloc);
    for r in routes {
        if is_stuck(w, r) {
            pairs.push((r.from, r.to))?;
        }
    }
    Ok(PairList::new(pairs))
}

// Whether a route is stuck over what is left of the fabric.
fn is_stuck(w: &World, r: &Route) -> bool
    ensures { result ≡ is_stuck w.now r.now }
{
    end_of(w, r.from, r.walk.turns()).is_none()
}

// The end that a walk from a host enters last over what is left.
fn end_of(w: &World, host: u16, turns: &[i8]) -> Option<End>
    ensures { result ≡ entered_after (fabric_left w.now.links.cables)
        (far (fabric_left w.now.links.cables) (host_port host)) turns.now }
{
    let start = End {
        v: Vertex::Host(host),
        p: 0,
    };
    let mut entered = far_left(w, start);
    for turn in turns {
        entered = turned_left(w, entered, *turn);
    }
    entered
}

// The end that is entered next over what is left, from the end entered last.
fn turned_left(w: &World, entered: Option<End>, turn: i8) -> Option<End>
    ensures { result ≡ turned (fabric_left w.now.links.cables) entered turn }
{
    let Some(e) = entered else {
        return None;
    };
    match exit_at(w, e, turn) {
        Some(exit) => far_left(w, exit),
        None => None,
    }
}

// The end by which a turn leaves.
fn exit_at(w: &World, e: End, turn: i8) -> Option<End>
    ensures { result ≡ exit_at (fabric_left w.now.links.cables) e.v e.p turn }
{
    match e.v {
        Vertex::Host(_) => None,
        Vertex::Switch(_) => match leaving_port(w.fabric().ports(e.v), e.p, turn) {
            Some(p) => Some(End { v: e.v, p }),
            None => None,
        },
    }
}

// The other end of the cable at a port, where one is left there.
fn far_left(w: &World, e: End) -> Option<End>
    ensures { result ≡ far (fabric_left w.now.links.cables) e }
{
    w.moment();
    match w.channel_from(e) {
        Some(c) if !w.is_new(c) => Some(w.ends(c).1),
        _ => None,
    }
}
