//! Routes of many pairs of hosts, in the order of their addresses.

ghost use Rattle.std.specs.Prelude.{◌≡◌, ◌-◌, ◌++◌, ◌∷◌, [], length, slice_get, Some, IfOk};
ghost use Rattle.std.specs.Prelude.{OnOk, OnErr, option_copied};
ghost use Rattle.net_defs.specs.RouteSet.{route_below, AreRising};
ghost use Rattle.port_graph.specs.Routes.{is_above, push_refusal, walk_of, walk_at, AreShort, HandsBack};

use net_defs::{Route, Walk};
use std::alloc::{AllocError, Global};
use std::marker::Model;
use thiserror::Error;

/// Why a set of routes doesn't take one as its next.
#[derive(Clone, Copy, Debug, PartialEq, Eq, Error)]
pub enum RoutePush {
    /// Its sender and receiver don't stand above those of the last.
    #[error("the routes are out of order")]
    Order,
    /// Memory ran out for a route that stands above the last.
    #[error("out of memory")]
    NoMemory,
}

/// Routes that rise by sender, then by receiver, so at most one for each two hosts. Contracts see the list of them.
#[derive(Debug, Drop)]
pub struct RouteSet {
    routes: Vec<Route>,
}

impl Model for RouteSet {
    ghost use Rattle.std.specs.Prelude.{List};
    ghost use Rattle.net_defs.specs.declared.route.Route.{Route};
    ghost use Rattle.net_defs.specs.RouteSet.{AreRising};
    ghost use Rattle.port_graph.specs.Routes.{AreShort};

    ghost Value = { List Route };

    ghost view = { λ s. s.routes.items };

    ghost invariant = { λ s. AreRising s.routes.items × AreShort s.routes.items };
}

impl RouteSet {
    /// The set without routes. It takes no memory.
    pub fn new(alloc: Global) -> RouteSet
        ensures { result ≡ [] }
    {
        RouteSet {
            routes: Vec::new(alloc),
        }
    }

    /// Adds a route above the last. A refused route is handed back, and the set stays: `Order` exactly where it isn't
    /// above.
    pub fn push(&mut self, r: Route) -> Result<(), (Route, RoutePush)>
        ensures pushed { OnOk result (self.new ≡ self.old ++ r ∷ []) }
        ensures refused { HandsBack (push_refusal self.old r) RoutePush.NoMemory r result }
        ensures unchanged { OnErr result (self.new ≡ self.old) }
    {
        if !self.is_above_last(&r) {
            return Err((r, RoutePush::Order));
        }
        let _short = r.walk.turns();
        match self.routes.push(r) {
            Ok(()) => Ok(()),
            Err(failed) => Err((failed.value, RoutePush::NoMemory)),
        }
    }

    /// Another set of the same routes.
    pub fn copied(&self, alloc: Global) -> Result<RouteSet, AllocError>
        ensures { IfOk result (λ set. set ≡ self.now) }
    {
        let mut routes = Vec::with_capacity(alloc, self.routes.len())?;
        for r in self.list() {
            routes.push(r.copied(alloc)?)?;
        }
        Ok(RouteSet { routes })
    }

    /// The routes, rising, each of at most 64 turns.
    pub fn list(&self) -> &[Route]
        ensures value { result.now ≡ self.now }
        ensures rising { AreRising self.now }
        ensures short { AreShort self.now }
    {
        &self.routes
    }

    /// The walk from one host to another, found in as many steps as the number of routes has bits.
    pub fn route(&self, from: u16, to: u16) -> Option<&Walk>
        ensures { option_copied result ≡ walk_of self.now from to }
    {
        match self.routes.get(place_of(&self.routes, from, to)) {
            Some(r) => walk_if(r, from, to),
            None => None,
        }
    }

    // Whether a route stands above the last one.
    fn is_above_last(&self, r: &Route) -> bool
        ensures { result ≡ is_above (slice_get self.now (length self.now - 1)) r.now }
    {
        match self.routes.last() {
            None => true,
            Some(last) => last.from < r.from || (last.from == r.from && last.to < r.to),
        }
    }
}

// The place of the first route that doesn't come before those from one host to another.
fn place_of(routes: &[Route], from: u16, to: u16) -> usize
    requires { AreRising routes.now }
    ensures { walk_of routes.now from to ≡ walk_at (slice_get routes.now result) from to }
{
    routes.partition_point(|r| r.from < from || (r.from == from && r.to < to))
}

// The walk of a route, if it goes from one host to another.
fn walk_if(r: &Route, from: u16, to: u16) -> Option<&Walk>
    ensures { option_copied result ≡ walk_at (Some r.now) from to }
{
    if r.from == from && r.to == to {
        Some(&r.walk)
    } else {
        None
    }
}
