//! What isn't acknowledged yet.

ghost use Rattle.std.specs.Prelude.{◌≡◌, ◌≤◌, ℕ, IfSome, IfNone};
ghost use Rattle.world_defs.specs.Node.{unacknowledged_to};
ghost use Rattle.world_defs.specs.World.{host_count, node_at};
ghost use Rattle.world_defs.specs.Settle.{unacknowledged_from, unacknowledged_in};
ghost use Rattle.nic_node.specs.Waiting.{IsNextUnacked};
ghost use Rattle.fab_world.specs.Events.{IsHostOf};

use crate::world::World;

impl World {
    /// How many fragments aren't acknowledged, sent or not, over all pairs of hosts and both priorities. Hosts that are
    /// known to be at rest are passed by.
    pub fn unacked(&self) -> u64
        ensures sum { result ≡ unacknowledged_in self.now }
        ensures few { result ≤ 140737488322560 }
    {
        self.moment();
        let _few = self.hosts();
        let mut sum = 0;
        let mut from = 0;
        while let Some(host) = self.next_awake(from) {
            sum += self.unacked_from(host);
            from = host + 1;
        }
        sum
    }

    // How many fragments of a host aren't acknowledged. Peers that have acknowledged all are passed by.
    fn unacked_from(&self, host: u16) -> u64
        requires { IsHostOf self.now host }
        ensures sum { result ≡ unacknowledged_from self.now host }
        ensures few { result ≤ 1099511627520 }
    {
        self.moment();
        let _few = self.hosts();
        let mut sum = 0;
        let mut from = 0;
        while let Some(peer) = self.next_unacked(host, from) {
            sum += self.unacked_to(host, peer);
            from = peer + 1;
        }
        sum
    }

    /// How many fragments of a host to a peer aren't acknowledged, sent or not, of both priorities.
    pub fn unacked_to(&self, host: u16, peer: u16) -> u64
        requires there { IsHostOf self.now host }
        requires peer { IsHostOf self.now peer }
        ensures sum { result ≡ unacknowledged_to (node_at self.now host) peer }
        ensures few { result ≤ 8589934590 }
    {
        self.machine.at(host).unacked(peer)
    }

    /// The least peer that isn't below an address and to which something of a host isn't acknowledged, sent or not, if
    /// there is one.
    pub fn next_unacked(&self, host: u16, from: u16) -> Option<u16>
        requires { IsHostOf self.now host }
        ensures found { IfSome result (IsNextUnacked (node_at self.now host) (host_count self.now) from) }
        ensures none { IfNone result ((peer : ℕ) → from ≤ peer
            → unacknowledged_to (node_at self.now host) peer ≡ 0) }
    {
        self.machine.at(host).next_unacked(from)
    }
}
