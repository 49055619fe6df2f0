//! A probe that is alone in the links goes to its end at once.

ghost use Rattle.std.specs.Prelude.{◌≡◌, ◌<◌, ◌≤◌, ◌&&◌, not, length, true, Some, is_some, IfOk, IfSome, IfNone, OnErr};
ghost use Rattle.world_defs.specs.History.{IsHistory};
ghost use Rattle.world_defs.specs.World.{fabric_of, host_count, last_count, node_at};
ghost use Rattle.world_defs.specs.Node.{has_staged};
ghost use Rattle.faulty_links.specs.Held.{of_world, is_clear};
ghost use Rattle.world_defs.specs.Step.{asked};
ghost use Rattle.fab_world.specs.Events.{IsHostOf, IsChannelOf};
ghost use Rattle.fab_world.specs.Carried.{IsCarriedIn, clear_way, ends_alone};

use super::Machine;
use client_host::Packet;
use host_items::write_probe;
use net_defs::{End, Vertex, Walk};
use std::alloc::{AllocError, Global};
use world_defs::{Effect, Why};

/// A probe that went to its end at once.
#[derive(Drop)]
pub struct Probed {
    /// The number of its injection.
    pub number: u64,
    /// How many channels it entered after its host's.
    pub hops: u16,
    /// What its end was.
    pub effect: Effect,
}

impl Machine {
    /// An ask of a host, its injection, and the advances of the probe's packet to its end, where no other packet is in
    /// the links, no fault is planned for it, and the host has nothing staged. None where it isn't so, and then nothing
    /// happened. The packet is written into the buffer of the one given. Running out of memory changes nothing.
    #[inline(always)]
    pub(crate) fn probe(
        &mut self,
        alloc: Global,
        host: u16,
        walk: &Walk,
        looped: bool,
        packet: &mut Packet,
    ) -> Result<Option<Probed>, AllocError>
        requires there { IsHostOf self.old host }
        requires short { looped ≡ true → length walk.now ≤ 31 }
        requires history { IsHistory self.old.links.cables }
        requires hosts { host_count self.old ≡ length (fabric_of self.old).hosts }
        ensures carried { IfOk result (λ o. IfSome o (λ p.
            IsCarriedIn (asked self.old host walk.now looped).1 host p.number p.hops p.effect self.new)) }
        ensures none { IfOk result (λ o. IfNone o (self.new ≡ self.old)) }
        ensures exactly { IfOk result (λ o. is_some o ≡ is_some (clear_way self.old host)) }
        ensures err { OnErr result (self.new ≡ self.old) }
    {
        match self.clear_way(host) {
            Some(c) => Ok(Some(self.carry(alloc, host, c, walk, looped, packet)?)),
            None => Ok(None),
        }
    }

    // The channel of a host, where a packet that it injects is alone and unharmed, and it has nothing staged.
    #[inline(always)]
    fn clear_way(&self, host: u16) -> Option<u16>
        requires { IsHostOf self.now host }
        ensures way { result ≡ clear_way self.now host }
        ensures there { IfSome result (IsChannelOf self.now) }
    {
        if !self.is_clear_for(host) {
            return None;
        }
        let port = End {
            v: Vertex::Host(host),
            p: 0,
        };
        self.links.channel_from(port)
    }

    // The links are clear for a packet, and a host has nothing staged.
    fn is_clear_for(&self, host: u16) -> bool
        requires { IsHostOf self.now host }
        ensures { result ≡ (is_clear (of_world self.now) && not (has_staged (node_at self.now host))) }
    {
        self.links.is_clear() && !self.at(host).has_staged()
    }

    // The probe goes from the host's channel, which is this one, to its end.
    #[inline(always)]
    fn carry(
        &mut self,
        alloc: Global,
        host: u16,
        c: u16,
        walk: &Walk,
        looped: bool,
        packet: &mut Packet,
    ) -> Result<Probed, AllocError>
        requires there { IsHostOf self.old host }
        requires channel { IsChannelOf self.old c }
        requires short { looped ≡ true → length walk.now ≤ 31 }
        requires history { IsHistory self.old.links.cables }
        requires hosts { host_count self.old ≡ length (fabric_of self.old).hosts }
        requires way { clear_way self.old host ≡ Some c }
        ensures carried { IfOk result (λ p.
            IsCarriedIn (asked self.old host walk.now looped).1 host p.number p.hops p.effect self.new) }
        ensures err { OnErr result (self.new ≡ self.old) }
    {
        let number = self.links.injected() + 1;
        write_probe(packet, host, number, walk, looped)?;
        let carried = self.links.carry(c, packet);
        let effect = self.end_alone(alloc, carried.end, packet)?;
        Ok(Probed {
            number,
            hops: carried.hops,
            effect,
        })
    }

    // A packet that was carried to its end counts as injected, and is heard or counts as dropped.
    #[inline(always)]
    fn end_alone(
        &mut self,
        alloc: Global,
        end: Result<u16, Why>,
        packet: &Packet,
    ) -> Result<Effect, AllocError>
        requires there { IfOk end (IsHostOf self.old) }
        requires left { self.old.injected < last_count }
        ensures ok { IfOk result (λ x. ends_alone self.old end packet.now ≡ (x, self.new)) }
        ensures err { OnErr result (self.new ≡ self.old) }
    {
        match end {
            Ok(host) => {
                let at = usize::from(host);
                let arrival = self.hosts[at].on_packet(alloc, packet)?;
                self.marks.mark_heard(at, arrival);
                Ok(self.links.heard_alone(host, arrival))
            }
            Err(why) => Ok(self.links.dropped_alone(why)),
        }
    }
}
