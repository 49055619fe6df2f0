//! Cables are pulled, plugged and accepted.

ghost use Rattle.std.specs.Prelude.{◌≡◌, ◌<◌, length, slice_get, Some, IfOk, OnOk, OnErr};
ghost use Rattle.world_defs.specs.Crossed.{is_new};
ghost use Rattle.world_defs.specs.Fault.{pull, plug, accept};

use super::Links;
use net_defs::End;
use std::alloc::AllocError;
use world_defs::Wire;

impl Links {
    /// Takes out the cable at a port, the packets in its two channels, and those in limbo that were taken from them:
    /// false exactly where the port has none. It takes no memory.
    pub fn pull(&mut self, e: End) -> bool
        ensures pulled { result ≡ (pull self.old e).0 }
        ensures links { self.new ≡ (pull self.old e).1 }
    {
        let Some(k) = self.wiring.pull(e) else {
            return false;
        };
        let _ = self.slots.take(2 * usize::from(k));
        let _ = self.slots.take(2 * usize::from(k) + 1);
        self.limbo.leave_cable(k);
        true
    }

    /// Joins two ports by a new cable with empty channels: false exactly where one of them isn't there or has a cable,
    /// the two are equal, or 4,096 cables were named. Where memory runs out nothing has changed.
    pub fn plug(&mut self, a: End, b: End) -> Result<bool, AllocError>
        ensures plugged { IfOk result (λ plugged. plugged ≡ (plug self.old a b).0) }
        ensures links { OnOk result (self.new ≡ (plug self.old a b).1) }
        ensures err { OnErr result (self.new ≡ self.old) }
    {
        if !self.wiring.may_plug(a, b) {
            return Ok(false);
        }
        self.slots.push_cable()?;
        match self.wiring.plug(a, b) {
            Ok(_) => Ok(true),
            Err(refused) => {
                self.slots.pop_cable();
                Err(refused)
            }
        }
    }

    /// Accepts the cables in place: none is new any more, and the next epoch begins.
    pub fn accept_cables(&mut self)
        ensures { self.new ≡ accept self.old }
    {
        self.wiring.accept();
        self.epoch = self.epoch.saturating_add(1);
    }

    /// How many times a cable was pulled or plugged.
    pub fn changes(&self) -> u16
        ensures { result ≡ self.now.cables.changes }
    {
        self.wiring.changes()
    }

    /// The cable of a number, with the changes that plugged and pulled it.
    pub fn wire(&self, k: u16) -> Wire
        requires { k < length self.now.cables.wires }
        ensures { slice_get self.now.cables.wires k ≡ Some result }
    {
        self.wiring.wire(k)
    }

    /// Whether a channel's cable was plugged since the cables were accepted.
    pub fn is_new(&self, c: u16) -> bool
        requires { c < length self.now.channels }
        ensures { result ≡ is_new self.now.cables c }
    {
        self.wiring.is_new(c)
    }
}
