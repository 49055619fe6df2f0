//! The packets in the channels.

ghost use Rattle.std.specs.Prelude.{◌≡◌, ◌<◌, ◌≤◌, ◌+◌, length, replicate, not, ◌&&◌, if◌then◌else◌, slice_index_or};
ghost use Rattle.std.specs.Prelude.{List, [], ◌∷◌, ◌++◌, slice_set, Option, Some, None, is_some, is_none};
ghost use Rattle.std.specs.Prelude.{option_copied};
ghost use Rattle.std.specs.Prelude.{IfOk, IfSome, IfNone, OnOk, OnErr, false, ◌≢◌};
ghost use Rattle.std.specs.List.{list_all};
ghost use Rattle.packet_defs.specs.Burst.{flipped, may_flip};
ghost use Rattle.world_defs.specs.Links.{Held};
ghost use Rattle.link_model.specs.FullSlots.{full_count, full_from, IsLone};

use myri_packet::Packet;
use number_marks::{bare, mark, next_marked, unmark};
use std::alloc::{AllocError, Global};
use std::marker::Model;
use std::mem;

/// A packet with the mark of a flip, and the number of the epoch in which it was built.
#[derive(Drop)]
pub struct Slot {
    packet: Packet,
    marked: bool,
    born: u32,
}

impl Model for Slot {
    ghost use Rattle.world_defs.specs.Links.{Held};

    ghost Value = { Held };

    ghost view = { λ s. record { wire = s.packet; marked = s.marked; born = s.born } };
}

impl Slot {
    /// A packet that no flip has met, built in an epoch.
    pub fn new(packet: Packet, born: u32) -> Slot
        ensures { result ≡ record { wire = packet; marked = false; born = born } }
    {
        Slot {
            packet,
            marked: false,
            born,
        }
    }

    /// The packet, whether a flip has met it or not.
    pub fn packet(&self) -> &Packet
        ensures { result.now ≡ self.now.wire }
    {
        &self.packet
    }

    /// The packet itself; the mark is let go.
    pub fn into_packet(self) -> Packet
        ensures { result ≡ self.wire }
    {
        let Slot {
            packet,
            marked: _,
            born: _,
        } = self;
        packet
    }

    /// The packet, whether a flip has met it, and its epoch.
    pub fn into_parts(self) -> (Packet, bool, u32)
        ensures { result ≡ (self.wire, self.marked, self.born) }
    {
        let Slot {
            packet,
            marked,
            born,
        } = self;
        (packet, marked, born)
    }

    /// A packet, whether a flip has met it, and its epoch.
    pub fn from_parts(packet: Packet, marked: bool, born: u32) -> Slot
        ensures { result ≡ record { wire = packet; marked = marked; born = born } }
    {
        Slot {
            packet,
            marked,
            born,
        }
    }

    /// Another packet with the same bytes, mark and epoch.
    pub fn copy(&self, alloc: Global) -> Result<Slot, AllocError>
        ensures { IfOk result (λ s. s ≡ self.now) }
    {
        Ok(Slot {
            packet: self.packet.copy(alloc)?,
            marked: self.marked,
            born: self.born,
        })
    }

    /// The packet after a flip, and whether the flip met it: a marked packet is flipped no more.
    pub fn flip(self, bit: u32, pattern: u8) -> (Slot, bool)
        ensures meets { result.1 ≡ (not self.marked && may_flip self.wire bit pattern) }
        ensures slot { result.0 ≡ (if result.1
            then record self { wire = flipped self.wire bit pattern; marked = result.1 } else self) }
    {
        let Slot {
            packet,
            marked,
            born,
        } = self;
        if marked {
            return (Slot::from_parts(packet, marked, born), false);
        }
        match packet.flip(bit, pattern) {
            Ok(packet) => (Slot::from_parts(packet, true, born), true),
            Err((packet, _)) => (Slot::from_parts(packet, marked, born), false),
        }
    }
}

/// What the channels hold, with the number of full ones, and a mark for each of them.
#[derive(Drop)]
pub struct Slots {
    slots: Vec<Option<Slot>>,
    full: usize,
    // The channel that was filled last: where one channel alone is full, it is most often this one.
    last: usize,
    marks: Vec<u64>,
}

impl Model for Slots {
    ghost use Rattle.std.specs.Prelude.{List, Option};
    ghost use Rattle.world_defs.specs.Links.{Held};
    ghost use Rattle.link_model.specs.FullSlots.{IsIndexed};

    ghost Value = { List (Option Held) };

    ghost view = { λ s. s.slots.items };

    ghost invariant = { λ s. IsIndexed s.slots.items s.full s.marks.items };
}

impl Slots {
    /// So many empty channels.
    pub fn new(alloc: Global, channels: usize) -> Result<Slots, AllocError>
        requires { channels ≤ 8192 }
        ensures { IfOk result (λ s. s ≡ replicate channels None) }
    {
        let mut slots = Vec::with_capacity(alloc, channels)?;
        while slots.len() < channels {
            slots.push(None)?;
        }
        Ok(Slots {
            slots,
            full: 0,
            last: 0,
            marks: bare(alloc, channels)?,
        })
    }

    /// Whether no channel holds a packet.
    pub fn are_empty(&self) -> bool
        ensures { result ≡ list_all is_none self.now }
    {
        self.full == 0
    }

    /// The first full channel from a number on. It looks at one word of marks for 64 channels, and at none where all
    /// channels are empty.
    pub fn next_full(&self, from: usize) -> Option<usize>
        ensures next { result ≡ full_from self.now from }
        ensures there { IfSome result (λ c. c < length self.now) }
    {
        if self.full == 0 {
            None
        } else {
            next_marked(&self.marks, from)
        }
    }

    /// The channel that is full where no other is. None where several are, or none is. It looks at the count first,
    /// and then at the channel that was filled last.
    pub fn lone(&self) -> Option<usize>
        ensures lone { IfSome result (IsLone self.now) }
        ensures none { IfNone result (full_count self.now ≢ 1) }
    {
        if self.full != 1 {
            None
        } else if is_full_at(&self.slots, self.last) {
            Some(self.last)
        } else {
            next_marked(&self.marks, 0)
        }
    }

    /// What a channel holds.
    pub fn peek(&self, c: usize) -> Option<&Slot>
        requires { c < length self.now }
        ensures { option_copied result ≡ slice_index_or self.now c None }
    {
        self.slots[c].as_ref()
    }

    /// Whether a channel holds a packet.
    pub fn is_full(&self, c: usize) -> bool
        requires { c < length self.now }
        ensures { result ≡ is_some (slice_index_or self.now c None) }
    {
        self.slots[c].is_some()
    }

    /// Takes what a channel holds.
    pub fn take(&mut self, c: usize) -> Option<Slot>
        requires { c < length self.old }
        ensures slot { result ≡ slice_index_or self.old c None }
        ensures slots { self.new ≡ slice_set self.old c None }
    {
        let slot = replace_at(&mut self.slots, c, None);
        if slot.is_some() {
            self.full -= 1;
            unmark(&mut self.marks, c);
        }
        slot
    }

    /// Two empty channels more.
    pub fn push_cable(&mut self) -> Result<(), AllocError>
        requires { length self.old + 2 ≤ 8192 }
        ensures ok { OnOk result (self.new ≡ self.old ++ None ∷ None ∷ []) }
        ensures err { OnErr result (self.new ≡ self.old) }
    {
        self.slots.reserve(2)?;
        if self.slots.len() + 2 > 64 * self.marks.len() {
            self.marks.push(0)?;
        }
        self.slots.push_reserved(None);
        self.slots.push_reserved(None);
        Ok(())
    }

    /// Takes the last two channels away, which are empty.
    pub fn pop_cable(&mut self)
        requires { (others : List (Option Held)) × (self.old ≡ others ++ None ∷ None ∷ []) }
        ensures { (others : List (Option Held)) → self.old ≡ others ++ None ∷ None ∷ [] → self.new ≡ others }
    {
        // Nothing is lost, and nothing has to be let go.
        mem::forget(self.slots.pop());
        mem::forget(self.slots.pop());
    }

    /// Puts a packet into an empty channel.
    pub fn put(&mut self, c: usize, slot: Slot)
        requires there { c < length self.old }
        requires empty { slice_index_or self.old c None ≡ None }
        ensures { self.new ≡ slice_set self.old c (Some slot) }
    {
        // The slot was empty: nothing is lost, and nothing has to be let go.
        mem::forget(replace_at(&mut self.slots, c, Some(slot)));
        self.full += 1;
        self.last = c;
        mark(&mut self.marks, c);
    }
}

// Whether there is a packet at a place; there is none where no channel is.
fn is_full_at(slots: &[Option<Slot>], c: usize) -> bool
    ensures { result ≡ is_some (slice_index_or slots.now c None) }
{
    match slots.get(c) {
        Some(slot) => slot.is_some(),
        None => false,
    }
}

// Puts a value at a place, and answers what was there.
fn replace_at(slots: &mut Vec<Option<Slot>>, c: usize, slot: Option<Slot>) -> Option<Slot>
    requires { c < length slots.old.items }
    ensures was { result ≡ slice_index_or slots.old.items c None }
    ensures slots { slots.new.items ≡ slice_set slots.old.items c slot }
{
    mem::replace(&mut slots[c], slot)
}
