//! Cables that come and go, and are accepted.

ghost use Rattle.std.specs.Prelude.{◌≡◌, ◌<◌, length, slice_get, Some, IfOk, OnErr};
ghost use Rattle.world_defs.specs.Crossed.{is_new};
ghost use Rattle.world_defs.specs.Fault.{accept};
ghost use Rattle.world_defs.specs.World.{WorldState};
ghost use Rattle.world_defs.specs.Step.{pulled, plugged};
ghost use Rattle.faulty_links.specs.Held.{with_part};

use super::FaultyLinks;
use net_defs::End;
use std::alloc::AllocError;
use world_defs::{Effect, Said, Wire};

impl FaultyLinks {
    /// The cable at a port is taken out, with the packets on it and those in limbo that were taken from it: idle
    /// exactly where the port has none. It takes no memory.
    pub fn pull(&mut self, e: End) -> Effect
        ensures { (w : WorldState) → pulled (with_part w self.old) e ≡ (result, with_part w self.new) }
    {
        if self.links.pull(e) {
            Effect::Said(Said::Done)
        } else {
            Effect::Idle
        }
    }

    /// Two ports are joined by a new cable: idle exactly where one of them isn't there or has a cable, the two are
    /// equal, or 4,096 cables were named. Where memory runs out nothing has changed.
    pub fn plug(&mut self, a: End, b: End) -> Result<Effect, AllocError>
        ensures ok { IfOk result (λ e. (w : WorldState)
            → plugged (with_part w self.old) a b ≡ (e, with_part w self.new)) }
        ensures err { OnErr result (self.new ≡ self.old) }
    {
        if !self.links.plug(a, b)? {
            return Ok(Effect::Idle);
        }
        Ok(Effect::Said(Said::Done))
    }

    /// Whether a channel's cable was plugged since the cables were accepted.
    pub fn is_new(&self, c: u16) -> bool
        requires { c < length self.now.links.channels }
        ensures { result ≡ is_new self.now.links.cables c }
    {
        self.links.is_new(c)
    }

    /// How many times a cable was pulled or plugged.
    pub fn changes(&self) -> u16
        ensures { result ≡ self.now.links.cables.changes }
    {
        self.links.changes()
    }

    /// The cable of a number, with the changes that plugged and pulled it.
    pub fn wire(&self, k: u16) -> Wire
        requires { k < length self.now.links.cables.wires }
        ensures { slice_get self.now.links.cables.wires k ≡ Some result }
    {
        self.links.wire(k)
    }

    /// Accepts the cables in place: none is new any more, and the next epoch begins.
    pub fn accept_cables(&mut self)
        ensures { self.new ≡ record self.old { links = accept self.old.links } }
    {
        self.links.accept_cables();
    }
}
