//! What a cable does to a packet.

ghost use Rattle.std.specs.Prelude.{◌≡◌, ◌<◌, length, IfOk, OnErr};
ghost use Rattle.world_defs.specs.World.{WorldState};
ghost use Rattle.world_defs.specs.Step.{lost, was_reset, repeated, held, flipped, replayed};
ghost use Rattle.faulty_links.specs.Held.{with_part};

use super::FaultyLinks;
use std::alloc::{AllocError, Global};
use world_defs::{Effect, Replayed};

impl FaultyLinks {
    /// A channel's packet is lost: idle exactly where there is none.
    pub fn lose(&mut self, c: u16) -> Effect
        requires { c < length self.old.links.channels }
        ensures { (w : WorldState) → lost (with_part w self.old) c ≡ (result, with_part w self.new) }
    {
        if self.links.lose(c) {
            Effect::Lost
        } else {
            Effect::Idle
        }
    }

    /// A channel's packet is taken away by a reset: idle exactly where there is none.
    pub fn reset(&mut self, c: u16) -> Effect
        requires { c < length self.old.links.channels }
        ensures { (w : WorldState) → was_reset (with_part w self.old) c ≡ (result, with_part w self.new) }
    {
        if self.links.reset(c) {
            Effect::Reset
        } else {
            Effect::Idle
        }
    }

    /// A copy of a channel's packet comes into limbo: idle exactly where there is no packet, or no serial for it.
    pub fn repeat(&mut self, alloc: Global, c: u16) -> Result<Effect, AllocError>
        requires { c < length self.old.links.channels }
        ensures ok { IfOk result (λ e. (w : WorldState)
            → repeated (with_part w self.old) c ≡ (e, with_part w self.new)) }
        ensures err { OnErr result (self.new ≡ self.old) }
    {
        let Some(serial) = self.links.repeat(alloc, c)? else {
            return Ok(Effect::Idle);
        };
        Ok(Effect::Repeated(serial))
    }

    /// A channel's packet itself comes into limbo: idle exactly where there is no packet, or no serial for it.
    pub fn hold(&mut self, c: u16) -> Result<Effect, AllocError>
        requires { c < length self.old.links.channels }
        ensures ok { IfOk result (λ e. (w : WorldState) → held (with_part w self.old) c ≡ (e, with_part w self.new)) }
        ensures err { OnErr result (self.new ≡ self.old) }
    {
        let Some(serial) = self.links.hold(c)? else {
            return Ok(Effect::Idle);
        };
        Ok(Effect::Held(serial))
    }

    /// A burst flips bits of a channel's packet: idle exactly where there is no packet, a flip has met it before, the
    /// pattern is 0, or its last bit lies past the packet's end.
    pub fn flip(&mut self, c: u16, bit: u32, pattern: u8) -> Result<Effect, AllocError>
        requires { c < length self.old.links.channels }
        ensures ok { IfOk result (λ e. (w : WorldState)
            → flipped (with_part w self.old) c bit pattern ≡ (e, with_part w self.new)) }
        ensures err { OnErr result (self.new ≡ self.old) }
    {
        if !self.links.flip(c, bit, pattern)? {
            return Ok(Effect::Idle);
        }
        Ok(Effect::Flipped)
    }

    /// The packet of a serial comes back from limbo: idle exactly where its channel is full, or nothing stands under
    /// the serial.
    pub fn replay(&mut self, serial: u64) -> Effect
        ensures { (w : WorldState) → replayed (with_part w self.old) serial ≡ (result, with_part w self.new) }
    {
        match self.links.replay(serial) {
            Replayed::Back(c) => Effect::Replayed(c),
            Replayed::Busy(_) | Replayed::Unknown => Effect::Idle,
        }
    }
}
