//! How the world stands to the epoch of its adopted routes, and hosts that give it up.

ghost use Rattle.std.specs.Prelude.{◌≡◌};
ghost use Rattle.world_defs.specs.World.{standing_of, first_unrevoked, is_any_revoked};
ghost use Rattle.world_defs.specs.Step.{revoked};
ghost use Rattle.fab_world.specs.Events.{IsHostOf};

use super::Machine;
use world_defs::{Effect, Said, Standing};

impl Machine {
    /// A host gives up the epoch of the adopted routes: idle exactly where none are adopted. It takes no memory.
    #[tactic(auto, unfolding(world_defs::specs::Step::revoked))]
    pub(crate) fn revoke(&mut self, host: u16) -> Effect
        requires { IsHostOf self.old host }
        ensures { revoked self.old host ≡ (result, self.new) }
    {
        if self.adopted.adopter().is_none() {
            return Effect::Idle;
        }
        let epoch = self.adopted.epoch();
        let at = usize::from(host);
        self.hosts[at].revoke(epoch);
        self.marks.mark(at);
        Effect::Said(Said::Done)
    }

    /// How the world stands to the epoch of its adopted routes.
    pub(crate) fn standing(&self) -> Standing
        ensures { result ≡ standing_of self.now }
    {
        let epoch = self.adopted.epoch();
        Standing {
            unrevoked: self.first_unrevoked(epoch),
            revoked: self.is_any_revoked(epoch),
            changes: self.links.changes(),
        }
    }

    // The first host that hasn't given up an epoch.
    fn first_unrevoked(&self, epoch: u32) -> Option<u16>
        ensures { result ≡ first_unrevoked self.now epoch }
    {
        for host in 0..self.count() {
            if !self.at(host).has_revoked(epoch) {
                return Some(host);
            }
        }
        None
    }

    // Whether some host has given up an epoch.
    fn is_any_revoked(&self, epoch: u32) -> bool
        ensures { result ≡ is_any_revoked self.now epoch }
    {
        for host in 0..self.count() {
            if self.at(host).has_revoked(epoch) {
                return true;
            }
        }
        false
    }
}
