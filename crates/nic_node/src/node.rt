//! One host.

ghost use Rattle.std.specs.Prelude.{◌≡◌, ◌<◌, ◌≤◌, nat_lt, length, true, is_some, if◌then◌else◌, None, Some};
ghost use Rattle.std.specs.Prelude.{replicate, IfOk};
ghost use Rattle.world_defs.specs.Mapping.{is_part};
ghost use Rattle.world_defs.specs.Node.{StagedProbe, StagedPart, has_staged, given_up, node_expired};
ghost use Rattle.world_defs.specs.Node.{port_count, unacknowledged_to, lane_count, lane_of, lane_at};
ghost use Rattle.gm_defs.specs.Body.{is_prio};
ghost use Rattle.world_defs.specs.Table.{active_epoch, revoked_table, has_revoked};
ghost use Rattle.nic_node.specs.Held.{unused_node, in_state};

use gm_conn::{Lanes, Message};
use host_items::Items;
use host_ports::Ports;
use net_defs::Walk;
use route_install::Table;
use route_parts::RoutePart;
use std::alloc::{AllocError, Global};
use std::marker::Model;

/// One host among others. Contracts see the host of the world that its parts make, beside its address and the number
/// of hosts.
///
/// It must be spent, by [`NicNode::end`] once all of its ports are closed.
pub struct NicNode {
    pub(crate) host: u16,
    pub(crate) items: Items,
    pub(crate) table: Table,
    pub(crate) lanes: Lanes,
    pub(crate) ports: Ports,
}

impl Model for NicNode {
    ghost use Rattle.nic_node.specs.Held.{HostNode, state_of, AreOfHost};

    ghost Value = { HostNode };

    ghost view = { λ n. record {
      host = n.host;
      hosts = n.lanes.hosts;
      state = state_of n.items n.table n.lanes n.ports;
    } };

    ghost invariant = { λ n. AreOfHost n.host n.table n.lanes n.ports };
}

impl NicNode {
    /// A host among so many, before anything happened.
    pub fn new(alloc: Global, host: u16, hosts: u16) -> Result<NicNode, AllocError>
        requires { host < hosts }
        ensures { IfOk result (λ n. n ≡ unused_node host hosts) }
    {
        let lanes = Lanes::new(alloc, host, hosts)?;
        let ports = Ports::new(alloc, host)?;
        Ok(NicNode {
            host,
            items: Items::new(),
            table: Table::new(alloc, host),
            lanes,
            ports,
        })
    }

    /// Its address, which is below the number of hosts.
    pub fn host(&self) -> u16
        ensures host { result ≡ self.now.host }
        ensures among { result < self.now.hosts }
    {
        self.host
    }

    /// How many hosts there are.
    pub fn hosts(&self) -> u16
        ensures hosts { result ≡ self.now.hosts }
        ensures lanes { length self.now.state.lanes ≡ lane_count result }
    {
        self.lanes.hosts()
    }

    /// Stages a probe of a walk, in the place of what was staged before. A looped one returns to this host: its walk
    /// has at most 31 turns.
    pub fn ask(&mut self, walk: Walk, looped: bool)
        requires { looped ≡ true → length walk ≤ 31 }
        ensures { self.new ≡ in_state self.old (record self.old.state { staged = Some (StagedProbe walk looped) }) }
    {
        self.items.ask(walk, looped);
    }

    /// Stages a part of a table, in the place of what was staged before; it travels by a route. The part is by the
    /// rules of its body.
    pub fn part(&mut self, part: RoutePart, by: Walk)
        requires { is_part part ≡ true }
        ensures { self.new ≡ in_state self.old (record self.old.state { staged = Some (StagedPart part by) }) }
    {
        self.items.part(part, by);
    }

    /// Puts a table of this host in the place of the one that it has.
    pub fn take_table(&mut self, table: Table)
        requires { table.host ≡ self.old.host }
        ensures { self.new ≡ in_state self.old (record self.old.state { table = table.state }) }
    {
        self.table = table;
    }

    /// Gives up an epoch: nothing of it is active or collected then, and its parts are old. Where the table has seen a
    /// later one nothing changes. What is staged stays.
    pub fn revoke(&mut self, epoch: u32)
        ensures { self.new ≡ in_state self.old
            (record self.old.state { table = revoked_table self.old.state.table epoch }) }
    {
        self.table.revoke(epoch);
    }

    /// Whether the host gave up an epoch, and has seen no later one.
    pub fn has_revoked(&self, epoch: u32) -> bool
        ensures { result ≡ has_revoked epoch self.now.state.table }
    {
        self.table.has_revoked(epoch)
    }

    /// Whether a probe, a part, the reply to a probe or the acknowledgement of a part is staged.
    pub fn has_mapping(&self) -> bool
        ensures { result ≡ has_staged self.now.state }
    {
        self.items.has_staged()
    }

    /// Drops the staged probe or part, the reply to a probe and the acknowledgement of a part. False exactly where
    /// none of them stood.
    pub fn give_up(&mut self) -> bool
        ensures told { result ≡ has_staged self.old.state }
        ensures after { self.new ≡ in_state self.old (given_up self.old.state) }
    {
        self.items.give_up()
    }

    /// Whether the acknowledgement of a part is staged.
    pub fn has_part_ack(&self) -> bool
        ensures { result ≡ is_some self.now.state.part_ack }
    {
        self.items.has_answer()
    }

    /// What a peer didn't acknowledge is sent again, of both priorities. False exactly where nothing is unacknowledged,
    /// and then nothing changes.
    pub fn expire(&mut self, peer: u16) -> bool
        requires { peer < self.old.hosts }
        ensures told { result ≡ nat_lt 0 (unacknowledged_to self.old.state peer) }
        ensures after { self.new ≡ in_state self.old (if result then node_expired self.old.state peer
            else self.old.state) }
    {
        if self.lanes.unacked(peer) == 0 {
            return false;
        }
        self.lanes.expire(peer);
        true
    }

    /// Its table.
    pub fn table(&self) -> &Table
        ensures { result.now ≡ record { host = self.now.host; state = self.now.state.table } }
    {
        &self.table
    }

    /// The epoch of its active table.
    pub fn active(&self) -> Option<u32>
        ensures { result ≡ active_epoch self.now.state.table }
    {
        self.table.active()
    }

    /// The messages of a priority that were accepted for a peer, in order.
    pub fn sent(&self, peer: u16, prio: u8) -> &[Message]
        requires peer { peer < self.now.hosts }
        requires prio { is_prio prio ≡ true }
        ensures { result.now ≡ (lane_at self.now.state (lane_of peer prio)).sent }
    {
        self.lanes.lane(peer, prio).sent()
    }

    /// The messages of a priority that were taken from a peer, in order.
    pub fn got(&self, peer: u16, prio: u8) -> &[Message]
        requires peer { peer < self.now.hosts }
        requires prio { is_prio prio ≡ true }
        ensures { result.now ≡ (lane_at self.now.state (lane_of peer prio)).got }
    {
        self.lanes.lane(peer, prio).got()
    }

    /// How many fragments to a peer aren't acknowledged, sent or not, of both priorities.
    pub fn unacked(&self, peer: u16) -> u64
        requires { peer < self.now.hosts }
        ensures sum { result ≡ unacknowledged_to self.now.state peer }
        ensures few { result ≤ 8589934590 }
    {
        self.lanes.unacked(peer)
    }

    /// Spends the host, all of whose ports are closed.
    pub fn end(self)
        requires { self.state.ports ≡ replicate port_count None }
    {
        let NicNode {
            host: _,
            items: _items,
            table: _table,
            lanes: _lanes,
            ports,
        } = self;
        ports.end();
    }
}
