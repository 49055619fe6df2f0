//! A route from host to host.

ghost use Rattle.std.specs.Prelude.{◌≡◌, IfOk};

use crate::walk::Walk;
use std::alloc::{AllocError, Global};

/// A route from one host to another, both by address: the turns that a packet takes.
#[derive(Debug, Drop)]
pub struct Route {
    /// The address of the sender.
    pub from: u16,
    /// The address of the receiver.
    pub to: u16,
    /// The turns from the sender, one for each switch on the way.
    pub walk: Walk,
}

impl Route {
    /// Another route with the same ends and turns.
    pub fn copied(&self, alloc: Global) -> Result<Route, AllocError>
        ensures { IfOk result (λ route. route ≡ self.now) }
    {
        Ok(Route {
            from: self.from,
            to: self.to,
            walk: self.walk.copied(alloc)?,
        })
    }
}
