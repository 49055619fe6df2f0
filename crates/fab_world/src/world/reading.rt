//! Reading a world.

ghost use Rattle.std.specs.Prelude.{◌≡◌, ◌≢◌, ◌≤◌, ◌<◌, ◌^◌, ℕ, length, slice_get, true, is_some, option_map, Some};
ghost use Rattle.std.specs.Prelude.{None};
ghost use Rattle.std.specs.Prelude.{IfSome, IfNone};
ghost use Rattle.world_defs.specs.Crossed.{leaving, life_channels, life_tail, life_head, is_new};
ghost use Rattle.world_defs.specs.Hops.{total_hops};
ghost use Rattle.world_defs.specs.Links.{packet_in, is_idle};
ghost use Rattle.world_defs.specs.Fault.{next_limbo};
ghost use Rattle.link_model.specs.FullSlots.{full_count, IsLone};
ghost use Rattle.link_model.specs.Full.{IsNextFull};
ghost use Rattle.gm_defs.specs.Body.{is_prio};
ghost use Rattle.gm_defs.specs.Connection.{connection};
ghost use Rattle.world_defs.specs.Node.{has_staged, port_at};
ghost use Rattle.world_defs.specs.Traffic.{sent_on, got_on};
ghost use Rattle.world_defs.specs.Table.{active_epoch};
ghost use Rattle.world_defs.specs.World.{host_count, node_at, has_to_send};
ghost use Rattle.host_ports.specs.Held.{place_at};
ghost use Rattle.fab_world.specs.Events.{IsHostOf, IsChannelOf};
ghost use Rattle.fab_world.specs.Resting.{IsNextAwake, IsNextBusy, IsSilentIn, RestsIn};

use super::World;
use client_host::{Message, TokenPlace};
use net_defs::End;

impl World {
    /// The number of hosts.
    pub fn hosts(&self) -> u16
        ensures { result ≡ host_count self.now }
    {
        self.machine.count()
    }

    /// The number of channels: two for each cable that was ever named, also where it was pulled.
    pub fn channels(&self) -> u16
        ensures count { result ≡ length self.now.links.channels }
        ensures same { result ≡ life_channels self.now.links.cables }
        ensures few { result ≤ 8192 }
    {
        self.machine.links.channels()
    }

    /// The channel that leaves by an end; none where no cable ends there.
    pub fn channel_from(&self, e: End) -> Option<u16>
        ensures channel { result ≡ leaving self.now.links.cables e }
        ensures there { IfSome result (IsChannelOf self.now) }
    {
        self.machine.links.channel_from(e)
    }

    /// Whether a channel's cable was plugged since the epoch of the adopted routes began.
    pub fn is_new(&self, c: u16) -> bool
        requires { IsChannelOf self.now c }
        ensures { result ≡ is_new self.now.links.cables c }
    {
        self.machine.links.is_new(c)
    }

    /// The ends that a channel leaves and enters, also where its cable was pulled.
    pub fn ends(&self, c: u16) -> (End, End)
        requires { IsChannelOf self.now c }
        ensures tail { life_tail self.now.links.cables c ≡ Some result.0 }
        ensures head { life_head self.now.links.cables c ≡ Some result.1 }
    {
        self.machine.links.ends(c)
    }

    /// The number of the change that plugged a cable, 0 for one of the input, and of the one that pulled it; none while
    /// it is in place. Its ends are those of channel 2k, also once it was pulled.
    pub fn cable_changes(&self, k: u16) -> (u64, Option<u64>)
        requires { k < length self.now.links.cables.wires }
        ensures plugged { option_map (λ w. w.plugged) (slice_get self.now.links.cables.wires k) ≡ Some result.0 }
        ensures pulled { option_map (λ w. w.pulled) (slice_get self.now.links.cables.wires k) ≡ Some result.1 }
    {
        let wire = self.machine.links.wire(k);
        (u64::from(wire.plugged), widened(wire.pulled))
    }

    /// Whether no channel holds a packet.
    pub fn links_idle(&self) -> bool
        ensures { result ≡ is_idle self.now.links }
    {
        self.machine.links.idle()
    }

    /// The least channel that isn't below a number and holds a packet.
    pub fn next_full(&self, from: u16) -> Option<u16>
        ensures found { IfSome result (IsNextFull self.now.links from) }
        ensures none { IfNone result ((k : ℕ) → from ≤ k → packet_in self.now.links k ≡ None) }
    {
        self.machine.links.next_full(from)
    }

    /// The channel that holds a packet where no other does. None where several do, or none does. It looks at a count
    /// first.
    pub fn lone(&self) -> Option<u16>
        ensures lone { IfSome result (IsLone self.now.links.channels) }
        ensures none { IfNone result (full_count self.now.links.channels ≢ 1) }
    {
        self.machine.links.lone()
    }

    /// At least the hops that all packets in channels have left: so many advances at most change something before
    /// none does.
    pub fn hops_bound(&self) -> u64
        ensures enough { total_hops self.now.links ≤ result }
        ensures few { result ≤ 9068544 }
    {
        self.machine.links.hops_bound()
    }

    /// The least serial in limbo that isn't below a number.
    pub fn next_limbo(&self, from: u64) -> Option<u64>
        ensures { result ≡ next_limbo self.now.links from }
    {
        self.machine.links.next_limbo(from)
    }

    /// How many injections there were.
    pub fn injected(&self) -> u64
        ensures { result ≡ self.now.injected }
    {
        self.machine.links.injected()
    }

    /// How many packets were dropped; the count stays at its last value.
    pub fn dropped(&self) -> u64
        ensures { result ≡ self.now.dropped }
    {
        self.machine.links.dropped()
    }

    /// How many planned faults struck.
    pub fn struck(&self) -> u64
        ensures { result ≡ self.now.struck }
    {
        self.machine.links.struck()
    }

    /// How many of those lost, held or flipped their packet.
    pub fn harmed(&self) -> u64
        ensures { result ≡ self.now.harmed }
    {
        self.machine.links.harmed()
    }

    /// How many faults are planned.
    pub fn planned(&self) -> u64
        ensures count { result ≡ length self.now.plan }
        ensures few { result < 2 ^ 63 }
    {
        self.machine.links.planned()
    }

    /// The least host that isn't below an address and may not be at rest: silent, and with nothing unacknowledged.
    pub fn next_awake(&self, from: u16) -> Option<u16>
        ensures found { IfSome result (IsNextAwake self.now from) }
        ensures none { IfNone result ((h : ℕ) → from ≤ h → IsHostOf self.now h → RestsIn self.now h) }
    {
        self.machine.next_awake(from)
    }

    /// The least host that isn't below an address and may not be silent: with nothing staged and nothing to send.
    pub fn next_busy(&self, from: u16) -> Option<u16>
        ensures found { IfSome result (IsNextBusy self.now from) }
        ensures none { IfNone result ((h : ℕ) → from ≤ h → IsHostOf self.now h → IsSilentIn self.now h) }
    {
        self.machine.next_busy(from)
    }

    /// Whether a host has something to send: not where it has no cable, nor where its cable is new and it has messages
    /// alone.
    pub fn has_to_send(&self, host: u16) -> bool
        requires { IsHostOf self.now host }
        ensures { result ≡ has_to_send self.now host }
    {
        self.machine.has_to_send(host)
    }

    /// Whether a host has staged anything: a probe, a part, a reply or the acknowledgement of a part.
    pub fn has_staged(&self, host: u16) -> bool
        requires { IsHostOf self.now host }
        ensures { result ≡ has_staged (node_at self.now host) }
    {
        self.machine.at(host).has_staged()
    }

    /// Whether a host has staged the acknowledgement of a part.
    pub fn has_part_ack(&self, host: u16) -> bool
        requires { IsHostOf self.now host }
        ensures { result ≡ is_some (node_at self.now host).part_ack }
    {
        self.machine.at(host).has_part_ack()
    }

    /// The epoch of a host's active table.
    pub fn table(&self, host: u16) -> Option<u32>
        requires { IsHostOf self.now host }
        ensures { result ≡ active_epoch (node_at self.now host).table }
    {
        self.machine.at(host).active()
    }

    /// The messages of a priority that a host accepted for a peer, in order.
    pub fn sent(&self, host: u16, peer: u16, prio: u8) -> &[Message]
        requires there { IsHostOf self.now host }
        requires peer { IsHostOf self.now peer }
        requires prio { is_prio prio ≡ true }
        ensures { result.now ≡ sent_on self.now (connection host peer prio) }
    {
        self.machine.at(host).sent(peer, prio)
    }

    /// The messages of a priority that a peer took from a host, in order.
    pub fn got(&self, host: u16, peer: u16, prio: u8) -> &[Message]
        requires there { IsHostOf self.now host }
        requires peer { IsHostOf self.now peer }
        requires prio { is_prio prio ≡ true }
        ensures { result.now ≡ got_on self.now (connection host peer prio) }
    {
        self.machine.at(peer).got(host, prio)
    }

    /// How many send tokens and how many receive tokens a port of a host was opened with. None exactly where it isn't
    /// open.
    pub fn minted(&self, host: u16, port: u8) -> Option<(u16, u16)>
        requires there { IsHostOf self.now host }
        requires port { port < 8 }
        ensures { result ≡ option_map (λ p. (p.sends, p.recvs)) (port_at (node_at self.now host) port) }
    {
        self.machine.at(host).minted(port)
    }

    /// The place of a send token or of a receive token of a port, by its number. None where the client has it, or the
    /// port isn't open.
    pub fn token_place(&self, host: u16, port: u8, send: bool, number: u16) -> Option<TokenPlace>
        requires there { IsHostOf self.now host }
        requires port { port < 8 }
        ensures { result ≡ place_at (port_at (node_at self.now host) port) send number }
    {
        self.machine.at(host).token_place(port, send, number)
    }
}

// The number of a change, if there was one.
fn widened(change: Option<u16>) -> Option<u64>
    ensures { result ≡ change }
{
    match change {
        Some(change) => Some(u64::from(change)),
        None => None,
    }
}
