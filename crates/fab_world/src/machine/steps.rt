//! A channel's packet goes on.

ghost use Rattle.std.specs.Prelude.{◌≡◌, ◌≢◌, ◌≤◌, ℕ, length, IfOk, OnErr};
ghost use Rattle.world_defs.specs.declared.moved.Moved.TheVariants.{To};
ghost use Rattle.world_defs.specs.Advance.{advance};
ghost use Rattle.link_model.specs.FullSlots.{IsLone};
ghost use Rattle.world_defs.specs.Step.{advanced};
ghost use Rattle.world_defs.specs.World.{fabric_of, host_count};
ghost use Rattle.fab_world.specs.Events.{IsChannelOf};
ghost use Rattle.fab_world.specs.Hop.{IsHopIn, IsRunIn};

use super::Machine;
use faulty_links::{Hop, Run};
use std::alloc::{AllocError, Global};
use world_defs::Effect;

impl Machine {
    /// A packet that reaches a host is heard there, and only then leaves its channel. Running out of memory changes
    /// nothing.
    #[inline(always)]
    pub(crate) fn advance(&mut self, alloc: Global, c: u16) -> Result<Effect, AllocError>
        requires there { IsChannelOf self.old c }
        requires hosts { host_count self.old ≡ length (fabric_of self.old).hosts }
        ensures ok { IfOk result (λ x. advanced self.old c ≡ (x, self.new)) }
        ensures err { OnErr result (self.new ≡ self.old) }
    {
        match self.links.reaching(c) {
            Some((host, packet)) => {
                let at = usize::from(host);
                let arrival = self.hosts[at].on_packet(alloc, packet)?;
                self.marks.mark_heard(at, arrival);
                Ok(self.links.heard(c, host, arrival))
            }
            None => Ok(self.links.advance(c)),
        }
    }

    /// An advance into the next channel, or one that is blocked. It is left untried, and to [`Machine::advance`],
    /// exactly where it is anything else.
    pub(crate) fn hop(&mut self, c: u16) -> Hop
        requires { IsChannelOf self.old c }
        ensures { IsHopIn self.old c result self.new }
    {
        self.links.hop(c)
    }

    /// The packet of the only full channel goes on as far as channels take it.
    pub(crate) fn run(&mut self, c: u16) -> Run
        requires { IsLone self.old.links.channels c }
        ensures run { IsRunIn self.old c result.hops result.at self.new }
        ensures lone { IsLone self.new.links.channels result.at }
        ensures last { (next : ℕ) → (advance self.new.links result.at).0 ≢ To next }
        ensures few { result.hops ≤ 1107 }
    {
        self.links.run(c)
    }
}
