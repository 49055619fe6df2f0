//! A client's call at a host.

ghost use Rattle.std.specs.Prelude.{◌≡◌, true, false, IfOk, OnErr};
ghost use Rattle.world_defs.specs.World.{host_count};
ghost use Rattle.world_defs.specs.Step.{step};
ghost use Rattle.client_host.specs.Calls.{IsClientCall};
ghost use Rattle.fab_world.specs.Events.{IsGiven, takes_memory};
ghost use Rattle.fab_world.specs.Held.{IsPolledOfHosts, is_refusal};

use super::Machine;
use client_host::caller;
use std::alloc::{AllocError, Global};
use world_defs::{Effect, Event};

impl Machine {
    /// A client's call at its host.
    pub(crate) fn call(&mut self, alloc: Global, e: &Event) -> Result<Effect, AllocError>
        requires call { IsClientCall e.now }
        requires given { IsGiven self.old e.now }
        ensures ok { IfOk result (λ x. step self.old e.now ≡ (x, self.new)) }
        ensures polled { IfOk result (λ x. IsPolledOfHosts (host_count self.old) e.now x) }
        ensures wanting { OnErr result (is_refusal (step self.old e.now).0 ≡ false) }
        ensures memory { OnErr result (takes_memory e.now ≡ true) }
        ensures err { OnErr result (self.new ≡ self.old) }
    {
        let at = usize::from(caller(e));
        let said = self.hosts[at].call(alloc, e)?;
        self.marks.mark(at);
        Ok(Effect::Said(said))
    }
}
