//! What a cable may do to a packet.

ghost use Rattle.std.specs.Prelude.{◌≡◌, ◌<◌, false, length, Some, None, IsSome, IfOk, IfErr, OnOk, OnErr};
ghost use Rattle.world_defs.specs.Links.{packet_in, with_packet};
ghost use Rattle.world_defs.specs.Fault.{lose, reset, repeat, hold, flip, replay, with_caught, is_used_up};

use super::Links;
use crate::Slot;
use myri_packet::Packet;
use std::alloc::{AllocError, Global};
use world_defs::Replayed;

impl Links {
    /// Loses a channel's packet: false exactly where there is none.
    pub fn lose(&mut self, c: u16) -> bool
        requires { c < length self.old.channels }
        ensures lost { result ≡ (lose self.old c).0 }
        ensures links { self.new ≡ (lose self.old c).1 }
    {
        let taken = self.slots.take(usize::from(c));
        let lost = taken.is_some();
        keep(&mut self.spare, taken);
        lost
    }

    /// Empties a channel as a loss does.
    pub fn reset(&mut self, c: u16) -> bool
        requires { c < length self.old.channels }
        ensures reset { result ≡ (reset self.old c).0 }
        ensures links { self.new ≡ (reset self.old c).1 }
    {
        self.lose(c)
    }

    /// Copies a channel's packet into limbo, with its mark, and answers its serial: none exactly where the channel is
    /// empty or the serials are used up.
    pub fn repeat(&mut self, alloc: Global, c: u16) -> Result<Option<u64>, AllocError>
        requires { c < length self.old.channels }
        ensures serial { IfOk result (λ serial. serial ≡ (repeat self.old c).0) }
        ensures links { OnOk result (self.new ≡ (repeat self.old c).1) }
        ensures err { OnErr result (self.new ≡ self.old) }
    {
        if self.next_serial == u64::MAX {
            return Ok(None);
        }
        let Some(slot) = self.slots.peek(usize::from(c)) else {
            return Ok(None);
        };
        let copy = slot.copy(alloc)?;
        match self.catch(c, copy) {
            Ok(serial) => Ok(Some(serial)),
            Err(_) => Err(AllocError),
        }
    }

    /// Moves a channel's packet into limbo, and answers its serial: none exactly where the channel is empty or the
    /// serials are used up.
    pub fn hold(&mut self, c: u16) -> Result<Option<u64>, AllocError>
        requires { c < length self.old.channels }
        ensures serial { IfOk result (λ serial. serial ≡ (hold self.old c).0) }
        ensures links { OnOk result (self.new ≡ (hold self.old c).1) }
        ensures err { OnErr result (self.new ≡ self.old) }
    {
        if self.next_serial == u64::MAX {
            return Ok(None);
        }
        let Some(slot) = self.slots.take(usize::from(c)) else {
            return Ok(None);
        };
        match self.catch(c, slot) {
            Ok(serial) => Ok(Some(serial)),
            Err(slot) => {
                self.slots.put(usize::from(c), slot);
                Err(AllocError)
            }
        }
    }

    /// Flips bits of a channel's packet: false exactly where the channel is empty, a flip has met the packet before,
    /// the pattern is 0, or its last bit lies past the packet's end.
    pub fn flip(&mut self, c: u16, bit: u32, pattern: u8) -> Result<bool, AllocError>
        requires { c < length self.old.channels }
        ensures flipped { IfOk result (λ flipped. flipped ≡ (flip self.old c bit pattern).0) }
        ensures links { OnOk result (self.new ≡ (flip self.old c bit pattern).1) }
        ensures err { OnErr result (self.new ≡ self.old) }
    {
        let Some(slot) = self.slots.take(usize::from(c)) else {
            return Ok(false);
        };
        let (slot, flipped) = slot.flip(bit, pattern);
        self.slots.put(usize::from(c), slot);
        Ok(flipped)
    }

    /// Puts the packet of a serial back from limbo into the channel that it was in.
    pub fn replay(&mut self, serial: u64) -> Replayed
        ensures replayed { result ≡ (replay self.old serial).0 }
        ensures links { self.new ≡ (replay self.old serial).1 }
    {
        match self.limbo.channel_of(serial) {
            Some(c) if self.slots.is_full(usize::from(c)) => Replayed::Busy(c),
            Some(c) => {
                let kept = self.limbo.remove(serial).unwrap();
                self.slots.put(usize::from(c), kept.into_slot());
                Replayed::Back(c)
            }
            None => Replayed::Unknown,
        }
    }

    // Adds a packet to limbo under the next serial. It hands the packet back where memory runs out.
    fn catch(&mut self, c: u16, slot: Slot) -> Result<u64, Slot>
        requires there { c < length self.old.channels }
        requires left { is_used_up self.old ≡ false }
        ensures serial { IfOk result (λ serial. serial ≡ self.old.next_serial) }
        ensures links { OnOk result (self.new ≡ with_caught self.old c slot) }
        ensures err { OnErr result (self.new ≡ self.old) }
        ensures back { IfErr result (λ s. s ≡ slot) }
    {
        let serial = self.next_serial;
        self.limbo.push(serial, c, slot)?;
        self.next_serial = serial + 1;
        Ok(serial)
    }
}

// Keeps a packet that left for its buffer, while there is room for it.
fn keep(spare: &mut Vec<Packet>, left: Option<Slot>) {
    if let Some(slot) = left {
        if spare.len() < spare.capacity() {
            spare.push_reserved(slot.into_packet());
        }
    }
}
