//! Cables are taken out and put in.

ghost use Rattle.std.specs.Prelude.{◌≡◌, ◌+◌, nat_eq, IfOk, OnErr};
ghost use Rattle.std.specs.Map.{lookup};
ghost use Rattle.world_defs.specs.Step.{pulled, plugged};
ghost use Rattle.faulty_links.specs.Held.{pull_end};

use super::Machine;
use net_defs::End;
use std::alloc::AllocError;
use world_defs::Effect;

impl Machine {
    /// The port whose cable is taken out by the next injection, if one is planned for it.
    pub(crate) fn next_pull(&self) -> Option<End>
        ensures { result ≡ pull_end (lookup (nat_eq (self.now.injected + 1)) self.now.plan) }
    {
        self.links.next_pull()
    }

    /// The cable at a port is taken out: idle exactly where the port has none.
    pub(crate) fn pull(&mut self, at: End) -> Effect
        ensures { pulled self.old at ≡ (result, self.new) }
    {
        self.links.pull(at)
    }

    /// Two ports are joined by a new cable. Running out of memory changes nothing.
    pub(crate) fn plug(&mut self, a: End, b: End) -> Result<Effect, AllocError>
        ensures ok { IfOk result (λ x. plugged self.old a b ≡ (x, self.new)) }
        ensures err { OnErr result (self.new ≡ self.old) }
    {
        self.links.plug(a, b)
    }
}
