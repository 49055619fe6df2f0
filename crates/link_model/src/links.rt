//! The links of a fabric: reading them, and putting packets into them.

ghost use Rattle.std.specs.Prelude.{◌≡◌, ◌<◌, ◌≤◌, ℕ, length, Some, None, option_map, option_copied, is_ok, IfOk};
ghost use Rattle.std.specs.Prelude.{◌≢◌, true, IfErr, IfSome, IfNone};
ghost use Rattle.net_defs.specs.Network.{IsFabric, has_port};
ghost use Rattle.world_defs.specs.History.{fabric_now, IsHistory};
ghost use Rattle.world_defs.specs.Crossed.{leaving, life_channels, life_tail, life_head};
ghost use Rattle.world_defs.specs.Links.{empty_links, packet_in, is_idle, put};
ghost use Rattle.world_defs.specs.Fault.{next_limbo};
ghost use Rattle.link_model.specs.FullSlots.{full_count, IsLone};
ghost use Rattle.link_model.specs.Full.{next_full, IsNextFull};

mod advance;
mod cables;
mod faults;

use crate::limbo::Limbo;
use crate::{Slot, Slots};
use fabric_wiring::Wiring;
use myri_packet::Packet;
use net_defs::End;
use port_graph::Fabric;
use std::alloc::{AllocError, Global};
use std::marker::Model;

// The most packets that are kept for their buffers.
const MOST_SPARE: usize = 256;

/// The channel holds a packet.
#[derive(Clone, Copy, Debug, PartialEq, Eq)]
pub struct Occupied;

/// The channels of a fabric with what they hold, and limbo. Contracts see the state of the link machine.
///
/// Cable k has channel 2k, from its first end to its second, and channel 2k + 1 back. A channel in an argument exists.
#[derive(Drop)]
pub struct Links {
    wiring: Wiring,
    // The number of the epoch, with which new packets are marked.
    epoch: u32,
    slots: Slots,
    limbo: Limbo,
    next_serial: u64,
    // Packets that left, whose buffers serve again. No contract sees them.
    spare: Vec<Packet>,
}

impl Model for Links {
    ghost use Rattle.world_defs.specs.Links.{LinkState};
    ghost use Rattle.world_defs.specs.Shape.{IsLinks};
    ghost use Rattle.link_model.specs.State.{state};

    ghost Value = { LinkState };

    ghost view = { λ l. state l.wiring l.epoch l.slots l.limbo l.next_serial };

    ghost invariant = { λ l. IsLinks (state l.wiring l.epoch l.slots l.limbo l.next_serial) };
}

impl Links {
    /// The links of a fabric, without packets.
    pub fn new(alloc: Global, f: &Fabric) -> Result<Links, AllocError>
        ensures { IfOk result (λ l. l ≡ empty_links f.now) }
    {
        let wiring = Wiring::new(alloc, f)?;
        let slots = Slots::new(alloc, wiring.channels())?;
        Ok(Links {
            wiring,
            epoch: 0,
            slots,
            limbo: Limbo::new(alloc),
            next_serial: 0,
            spare: Vec::with_capacity(alloc, MOST_SPARE)?,
        })
    }

    /// The number of channels.
    pub fn channels(&self) -> u16
        ensures count { result ≡ length self.now.channels }
        ensures same { result ≡ life_channels self.now.cables }
        ensures few { result ≤ 8192 }
    {
        self.wiring.channels() as u16
    }

    /// The channel that leaves by an end; none where no cable ends there.
    pub fn channel_from(&self, e: End) -> Option<u16>
        ensures channel { result ≡ leaving self.now.cables e }
        ensures fabric { IsFabric (fabric_now self.now.cables) }
        ensures history { IsHistory self.now.cables }
        ensures there { IfSome result (λ c. c < length self.now.channels) }
    {
        self.wiring.channel_from(e)
    }

    /// The ends that a channel leaves and enters.
    pub fn ends(&self, c: u16) -> (End, End)
        requires { c < length self.now.channels }
        ensures tail { life_tail self.now.cables c ≡ Some result.0 }
        ensures head { life_head self.now.cables c ≡ Some result.1 }
        ensures there { has_port (fabric_now self.now.cables) result.1 ≡ true }
    {
        (self.wiring.tail(c), self.wiring.head(c))
    }

    /// The packet in a channel.
    pub fn peek(&self, c: u16) -> Option<&Packet>
        requires { c < length self.now.channels }
        ensures { option_copied result ≡ option_map (λ held. held.wire) (packet_in self.now c) }
    {
        match self.slots.peek(usize::from(c)) {
            Some(slot) => Some(slot.packet()),
            None => None,
        }
    }

    /// Whether no channel holds a packet. It looks at a count, and at no channel.
    pub fn idle(&self) -> bool
        ensures { result ≡ is_idle self.now }
    {
        self.slots.are_empty()
    }

    /// The least channel that isn't below a number and holds a packet. It looks at one bit for each channel, 64 at a
    /// time.
    pub fn next_full(&self, from: u16) -> Option<u16>
        ensures next { result ≡ next_full self.now from }
        ensures found { IfSome result (IsNextFull self.now from) }
        ensures none { IfNone result ((k : ℕ) → from ≤ k → packet_in self.now k ≡ None) }
    {
        let _few = self.channels();
        match self.slots.next_full(usize::from(from)) {
            Some(c) => Some(c as u16),
            None => None,
        }
    }

    /// The channel that holds a packet where no other does. None where several do, or none does. It looks at a count
    /// first.
    pub fn lone(&self) -> Option<u16>
        ensures lone { IfSome result (IsLone self.now.channels) }
        ensures none { IfNone result (full_count self.now.channels ≢ 1) }
    {
        let _few = self.channels();
        match self.slots.lone() {
            Some(c) => Some(c as u16),
            None => None,
        }
    }

    /// Puts a new packet into a channel. Refused exactly where the channel holds one; the packet is handed back.
    pub fn put(&mut self, c: u16, p: Packet) -> Result<(), (Packet, Occupied)>
        requires { c < length self.old.channels }
        ensures done { is_ok result ≡ (put self.old c p).0 }
        ensures links { self.new ≡ (put self.old c p).1 }
        ensures back { IfErr result (λ e. e.0 ≡ p) }
    {
        if self.slots.is_full(usize::from(c)) {
            return Err((p, Occupied));
        }
        self.slots.put(usize::from(c), Slot::new(p, self.epoch));
        Ok(())
    }

    /// A packet to write into: one that left, whose buffer serves again, or one without a buffer.
    pub fn spare(&mut self, alloc: Global) -> Packet
        ensures { self.new ≡ self.old }
    {
        match self.spare.pop() {
            Some(packet) => packet,
            None => Packet::unwritten(alloc),
        }
    }

    /// The least serial in limbo that isn't below a number.
    pub fn next_limbo(&self, from: u64) -> Option<u64>
        ensures { result ≡ next_limbo self.now from }
    {
        self.limbo.next(from)
    }
}
