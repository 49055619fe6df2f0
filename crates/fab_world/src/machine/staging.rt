//! What a host stages and gives up.

ghost use Rattle.std.specs.Prelude.{◌≡◌, ◌≤◌, length, true, OnOk, OnErr, if◌then◌else◌};
ghost use Rattle.world_defs.specs.Step.{asked, expired, gave_up};
ghost use Rattle.fab_world.specs.Events.{IsHostOf};

use super::Machine;
use net_defs::Walk;
use std::alloc::{AllocError, Global};
use world_defs::Effect;

impl Machine {
    /// A probe of a copy of this walk is staged at a host. Running out of memory changes nothing.
    pub(crate) fn stage_probe(
        &mut self,
        alloc: Global,
        host: u16,
        walk: &Walk,
        looped: bool,
    ) -> Result<(), AllocError>
        requires there { IsHostOf self.old host }
        requires short { looped ≡ true → length walk.now ≤ 31 }
        ensures ok { OnOk result (asked self.old host walk.now looped ≡ (Effect.Staged, self.new)) }
        ensures err { OnErr result (self.new ≡ self.old) }
    {
        let walk = walk.copied(alloc)?;
        let at = usize::from(host);
        self.hosts[at].ask(walk, looped);
        self.marks.mark(at);
        Ok(())
    }

    pub(crate) fn expire(&mut self, host: u16, peer: u16) -> Effect
        requires there { IsHostOf self.old host }
        requires peer { IsHostOf self.old peer }
        ensures { expired self.old host peer ≡ (result, self.new) }
    {
        let at = usize::from(host);
        let done = self.hosts[at].expire(peer);
        self.marks.mark(at);
        done_or_idle(done, Effect::Expired)
    }

    pub(crate) fn give_up(&mut self, host: u16) -> Effect
        requires { IsHostOf self.old host }
        ensures { gave_up self.old host ≡ (result, self.new) }
    {
        let at = usize::from(host);
        let done = self.hosts[at].give_up();
        self.marks.mark(at);
        done_or_idle(done, Effect::GaveUp)
    }
}

// The effect of what was done; idle where nothing was.
fn done_or_idle(done: bool, effect: Effect) -> Effect
    ensures { result ≡ (if done then effect else Effect.Idle) }
{
    if done { effect } else { Effect::Idle }
}
