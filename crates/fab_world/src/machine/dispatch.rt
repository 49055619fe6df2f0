//! Each event that leaves the cables, by what it is.

ghost use Rattle.std.specs.Prelude.{◌≡◌, ◌≤◌, length, true, false, IfOk, IfSome, OnErr};
ghost use Rattle.world_defs.specs.Cables.{is_of_cables};
ghost use Rattle.world_defs.specs.World.{fabric_of, host_count, planned};
ghost use Rattle.world_defs.specs.Step.{step};
ghost use Rattle.adopted_routes.specs.Adopting.{IsSetOfHosts};
ghost use Rattle.client_host.specs.Calls.{IsClientCall};
ghost use Rattle.fab_world.specs.Events.{IsGiven, takes_memory};
ghost use Rattle.fab_world.specs.Held.{IsPolledOfHosts, is_refusal};

use super::Machine;
use std::alloc::{AllocError, Global};
use world_defs::{Effect, Event, Fault};

impl Machine {
    /// An event that leaves the cables: its effect, and links and hosts after it. Running out of memory changes
    /// nothing, and hides no refusal of a client's call.
    pub(crate) fn step(&mut self, alloc: Global, e: &Event) -> Result<Effect, AllocError>
        requires given { IsGiven self.old e.now }
        requires still { is_of_cables e.now ≡ false }
        requires hosts { host_count self.old ≡ length (fabric_of self.old).hosts }
        requires routes { IfSome self.old.adopted (IsSetOfHosts (host_count self.old)) }
        ensures ok { IfOk result (λ x. step self.old e.now ≡ (x, self.new)) }
        ensures polled { IfOk result (λ x. IsPolledOfHosts (host_count self.old) e.now x) }
        ensures wanting { OnErr result (IsClientCall e.now → is_refusal (step self.old e.now).0 ≡ false) }
        ensures memory { OnErr result (takes_memory e.now ≡ true) }
        ensures err { OnErr result (self.new ≡ self.old) }
    {
        match e {
            Event::Ask { host, walk, looped } => {
                self.stage_probe(alloc, *host, walk, *looped)?;
                Ok(Effect::Staged)
            }
            Event::Part { dst, part } => self.part(alloc, *dst, *part),
            Event::Advance(c) => self.advance(alloc, *c),
            Event::Lose(c) => Ok(self.links.lose(*c)),
            Event::Repeat(c) => self.links.repeat(alloc, *c),
            Event::Hold(c) => self.links.hold(*c),
            Event::Flip {
                channel,
                bit,
                pattern,
            } => self.links.flip(*channel, *bit, *pattern),
            Event::Replay(serial) => Ok(self.links.replay(*serial)),
            Event::Reset(c) => Ok(self.links.reset(*c)),
            Event::Expire { host, peer } => Ok(self.expire(*host, *peer)),
            Event::GiveUp(host) => Ok(self.give_up(*host)),
            Event::Revoke(host) => Ok(self.revoke(*host)),
            _ => self.call(alloc, e),
        }
    }

    /// Plans a fault for the injection so far ahead.
    pub(crate) fn plan(&mut self, ahead: u64, fault: Fault) -> Result<u128, AllocError>
        requires { 1 ≤ ahead }
        ensures ok { IfOk result (λ number. planned self.old ahead fault ≡ (number, self.new)) }
        ensures err { OnErr result (self.new ≡ self.old) }
    {
        self.links.plan(ahead, fault)
    }
}
