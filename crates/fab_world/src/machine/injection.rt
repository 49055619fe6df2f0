//! A host puts a packet into its channel.

ghost use Rattle.std.specs.Prelude.{◌≡◌, ◌<◌, ◌+◌, ◌&&◌, not, length, true, Some, is_some, option_map, IfOk, OnOk, OnErr};
ghost use Rattle.world_defs.specs.Crossed.{is_new};
ghost use Rattle.world_defs.specs.Node.{to_send, packet_for, has_staged};
ghost use Rattle.world_defs.specs.World.{WorldState, node_at, may_send, has_to_send};
ghost use Rattle.world_defs.specs.Step.{injected, inject_one, planned_strikes};
ghost use Rattle.faulty_links.specs.Held.{of_world, with_part, can_inject, put_under_next};
ghost use Rattle.nic_node.specs.Sending.{chosen};
ghost use Rattle.fab_world.specs.Events.{IsHostOf, IsChannelOf};

use super::Machine;
use client_host::{NextSend, Packet};
use faulty_links::FaultyLinks;
use net_defs::{End, Vertex};
use std::alloc::{AllocError, Global};
use world_defs::Effect;

impl Machine {
    #[tactic(auto, unfolding(world_defs::specs::Step::injected))]
    pub(crate) fn inject(&mut self, alloc: Global, host: u16) -> Result<Effect, AllocError>
        requires { IsHostOf self.old host }
        ensures ok { IfOk result (λ x. injected self.old host ≡ (x, self.new)) }
        ensures err { OnErr result (self.new ≡ self.old) }
    {
        let port = End {
            v: Vertex::Host(host),
            p: 0,
        };
        match self.links.channel_from(port) {
            Some(c) => self.inject_into(alloc, host, c),
            None => Ok(Effect::Idle),
        }
    }

    // The host's channel is this one.
    fn inject_into(&mut self, alloc: Global, host: u16, c: u16) -> Result<Effect, AllocError>
        requires there { IsHostOf self.old host }
        requires channel { IsChannelOf self.old c }
        ensures ok { IfOk result (λ x. inject_one self.old host c (to_send host (node_at self.old host))
            ≡ (x, self.new)) }
        ensures err { OnErr result (self.new ≡ self.old) }
    {
        if !self.links.can_inject(c) {
            return Ok(Effect::Idle);
        }
        if self.is_kept_out(host, c) {
            return Ok(Effect::Idle);
        }
        match self.at(host).next_send() {
            Some(next) => self.send(alloc, host, c, next),
            None => Ok(Effect::Idle),
        }
    }

    // The host sends this first, and its channel can take it.
    fn send(
        &mut self,
        alloc: Global,
        host: u16,
        c: u16,
        next: NextSend,
    ) -> Result<Effect, AllocError>
        requires there { IsHostOf self.old host }
        requires channel { IsChannelOf self.old c }
        requires free { can_inject (of_world self.old) c ≡ true }
        requires may { may_send self.old c (to_send host (node_at self.old host)) ≡ true }
        requires first { chosen host (node_at self.old host) next ≡ to_send host (node_at self.old host) }
        requires some { is_some (chosen host (node_at self.old host) next) ≡ true }
        ensures ok { IfOk result (λ x. inject_one self.old host c (to_send host (node_at self.old host))
            ≡ (x, self.new)) }
        ensures err { OnErr result (self.new ≡ self.old) }
    {
        let number = self.links.injected() + 1;
        let packet = self.written(alloc, host, next, number)?;
        self.put(alloc, host, c, next, packet)
    }

    // The packet of something that the host has to send, injected under a number, in the buffer of one that left.
    fn written(
        &mut self,
        alloc: Global,
        host: u16,
        next: NextSend,
        number: u64,
    ) -> Result<Packet, AllocError>
        requires there { IsHostOf self.old host }
        requires some { is_some (chosen host (node_at self.old host) next) ≡ true }
        ensures packet { IfOk result (λ packet. Some packet ≡ option_map (packet_for host number)
            (chosen host (node_at self.old host) next)) }
        ensures same { self.new ≡ self.old }
    {
        let mut packet = self.links.spare(alloc);
        let at = usize::from(host);
        self.hosts[at].write_packet(alloc, next, number, &mut self.bytes, &mut packet)?;
        Ok(packet)
    }

    // The channel's cable is new, and the host has messages alone to send, if anything.
    fn is_kept_out(&self, host: u16, c: u16) -> bool
        requires there { IsHostOf self.now host }
        requires channel { IsChannelOf self.now c }
        ensures { result ≡ (is_new self.now.links.cables c && not (has_staged (node_at self.now host))) }
    {
        self.links.is_new(c) && !self.at(host).has_staged()
    }

    /// Whether a host has something to send that its cable doesn't keep out, if it has one.
    pub(crate) fn has_to_send(&self, host: u16) -> bool
        requires { IsHostOf self.now host }
        ensures { result ≡ has_to_send self.now host }
    {
        let port = End {
            v: Vertex::Host(host),
            p: 0,
        };
        match self.links.channel_from(port) {
            Some(c) => self.may_send(host, c),
            None => false,
        }
    }

    // The same where this is the host's channel.
    fn may_send(&self, host: u16, c: u16) -> bool
        requires there { IsHostOf self.now host }
        requires channel { IsChannelOf self.now c }
        ensures { result ≡ may_send self.now c (to_send host (node_at self.now host)) }
    {
        self.at(host).has_to_send() && !self.is_kept_out(host, c)
    }

    // The packet of what the host sends first enters its channel, and that counts as sent.
    fn put(
        &mut self,
        alloc: Global,
        host: u16,
        c: u16,
        next: NextSend,
        packet: Packet,
    ) -> Result<Effect, AllocError>
        requires there { IsHostOf self.old host }
        requires channel { IsChannelOf self.old c }
        requires free { can_inject (of_world self.old) c ≡ true }
        requires may { may_send self.old c (to_send host (node_at self.old host)) ≡ true }
        requires first { chosen host (node_at self.old host) next ≡ to_send host (node_at self.old host) }
        requires some { is_some (chosen host (node_at self.old host) next) ≡ true }
        requires packet { Some packet ≡ option_map (packet_for host (self.old.injected + 1))
            (to_send host (node_at self.old host)) }
        ensures ok { IfOk result (λ x. inject_one self.old host c (to_send host (node_at self.old host))
            ≡ (x, self.new)) }
        ensures err { OnErr result (self.new ≡ self.old) }
    {
        let effect = enter(&mut self.links, alloc, c, packet)?;
        let at = usize::from(host);
        self.hosts[at].sent_as(next);
        self.marks.mark(at);
        Ok(effect)
    }
}

/// A packet enters a channel that can take it. Where memory runs out it ends, and nothing has changed: here, away
/// from the hosts, since a proof goes through its parts wherever it ends. In the program it stands in its callers,
/// which need not hand the packet over.
#[inline(always)]
pub(crate) fn enter(
    links: &mut FaultyLinks,
    alloc: Global,
    c: u16,
    packet: Packet,
) -> Result<Effect, AllocError>
    requires there { c < length links.old.links.channels }
    requires free { can_inject links.old c ≡ true }
    ensures number { IfOk result (λ e. e ≡ Effect.Injected (links.old.injected + 1)) }
    ensures strikes { OnOk result ((w : WorldState)
        → planned_strikes (put_under_next (with_part w links.old) c packet) c ≡ with_part w links.new) }
    ensures err { OnErr result (links.new ≡ links.old) }
{
    match links.inject(alloc, c, packet) {
        Ok(effect) => Ok(effect),
        Err((_, wanting)) => Err(wanting),
    }
}
