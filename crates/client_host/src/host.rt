//! One host with its clients, and all that is no call of a client.

ghost use Rattle.std.specs.Prelude.{◌≡◌, ◌<◌, ◌≤◌, ℕ, nat_lt, length, replicate, true, is_some, if◌then◌else◌, Some};
ghost use Rattle.std.specs.Prelude.{None, option_map, option_and_then, IfOk, IfSome, IfNone, OnOk, OnErr};
ghost use Rattle.gm_defs.specs.Body.{is_prio};
ghost use Rattle.world_defs.specs.Mapping.{is_part};
ghost use Rattle.world_defs.specs.Table.{active_epoch, revoked_table, has_revoked};
ghost use Rattle.world_defs.specs.Node.{StagedProbe, StagedPart, port_count, to_send, packet_for, has_staged, given_up};
ghost use Rattle.world_defs.specs.Node.{node_expired, unacknowledged_to, lane_count, lane_of};
ghost use Rattle.world_defs.specs.Node.{lane_at};
ghost use Rattle.world_defs.specs.Hearing.{hear};
ghost use Rattle.nic_node.specs.Sending.{chosen, once_sent};
ghost use Rattle.nic_node.specs.Waiting.{IsNextUnacked};
ghost use Rattle.client_host.specs.Held.{unused_host, in_state};

use crate::ending::end_clients;
use net_defs::Walk;
use nic_node::{Arrival, Message, NextSend, NicNode, Packet, RoutePart, Table};
use port_client::Client;
use reg_mem::Rooms;
use std::alloc::{AllocError, Global};
use std::marker::Model;

// How many ports a host has.
const PORTS: usize = 8;

/// One host among others, with the clients of its ports. Contracts see the host of the world and the tokens that each
/// client holds.
///
/// It must be spent, by [`ClientHost::end`].
pub struct ClientHost {
    pub(crate) node: NicNode,
    pub(crate) clients: Vec<Option<Client>>,
    // Rooms of buffers in which nothing was written, for buffers that are provided later.
    pub(crate) rooms: Rooms,
}

impl Model for ClientHost {
    ghost use Rattle.client_host.specs.Held.{ServedHost};
    ghost use Rattle.client_host.specs.Tied.{served, IsServed};

    ghost Value = { ServedHost };

    ghost view = { λ h. served h.node h.clients.items };

    ghost invariant = { λ h. IsServed h.node h.clients.items };
}

impl ClientHost {
    /// A host among so many, before anything happened.
    pub fn new(alloc: Global, host: u16, hosts: u16) -> Result<ClientHost, AllocError>
        requires { host < hosts }
        ensures { IfOk result (λ h. h ≡ unused_host host hosts) }
    {
        let node = NicNode::new(alloc, host, hosts)?;
        match no_clients(alloc) {
            Ok(clients) => Ok(ClientHost {
                node,
                clients,
                rooms: Rooms::new(alloc),
            }),
            Err(wanting) => {
                node.end();
                Err(wanting)
            }
        }
    }

    /// Its address, which is below the number of hosts.
    pub fn host(&self) -> u16
        ensures host { result ≡ self.now.host }
        ensures among { result < self.now.hosts }
    {
        self.node.host()
    }

    /// How many hosts there are.
    pub fn hosts(&self) -> u16
        ensures hosts { result ≡ self.now.hosts }
        ensures lanes { length self.now.state.lanes ≡ lane_count result }
    {
        self.node.hosts()
    }

    /// A packet reached the host: what was made of it is exactly what the definition makes of its bytes. Running out of
    /// memory changes nothing.
    #[inline(always)]
    pub fn on_packet(&mut self, alloc: Global, p: &Packet) -> Result<Arrival, AllocError>
        ensures heard { IfOk result (λ arrival. arrival ≡ (hear self.old.host self.old.hosts self.old.state p.now).0) }
        ensures after { OnOk result (self.new ≡ in_state self.old
            (hear self.old.host self.old.hosts self.old.state p.now).1) }
        ensures unchanged { OnErr result (self.new ≡ self.old) }
    {
        self.node.on_packet(alloc, p)
    }

    /// Stages a probe of a walk, in the place of what was staged before. The walk of a looped one has at most 31 turns.
    pub fn ask(&mut self, walk: Walk, looped: bool)
        requires { looped ≡ true → length walk ≤ 31 }
        ensures { self.new ≡ in_state self.old (record self.old.state { staged = Some (StagedProbe walk looped) }) }
    {
        self.node.ask(walk, looped);
    }

    /// Stages a part of a table, in the place of what was staged before; it travels by a route. The part is by the
    /// rules of its body.
    pub fn part(&mut self, part: RoutePart, by: Walk)
        requires { is_part part ≡ true }
        ensures { self.new ≡ in_state self.old (record self.old.state { staged = Some (StagedPart part by) }) }
    {
        self.node.part(part, by);
    }

    /// Puts a table of this host in the place of the one that it has.
    pub fn take_table(&mut self, table: Table)
        requires { table.host ≡ self.old.host }
        ensures { self.new ≡ in_state self.old (record self.old.state { table = table.state }) }
    {
        self.node.take_table(table);
    }

    /// Gives up an epoch: nothing of it is active or collected then, and its parts are old. Where the table has seen a
    /// later one nothing changes. What is staged stays.
    pub fn revoke(&mut self, epoch: u32)
        ensures { self.new ≡ in_state self.old
            (record self.old.state { table = revoked_table self.old.state.table epoch }) }
    {
        self.node.revoke(epoch);
    }

    /// Whether the host gave up an epoch, and has seen no later one.
    pub fn has_revoked(&self, epoch: u32) -> bool
        ensures { result ≡ has_revoked epoch self.now.state.table }
    {
        self.node.has_revoked(epoch)
    }

    /// Whether a probe, a part, the reply to a probe or the acknowledgement of a part is staged.
    pub fn has_staged(&self) -> bool
        ensures { result ≡ has_staged self.now.state }
    {
        self.node.has_mapping()
    }

    /// Drops the staged probe or part, the reply to a probe and the acknowledgement of a part. False exactly where
    /// none of them stood.
    pub fn give_up(&mut self) -> bool
        ensures told { result ≡ has_staged self.old.state }
        ensures after { self.new ≡ in_state self.old (given_up self.old.state) }
    {
        self.node.give_up()
    }

    /// Whether the acknowledgement of a part is staged.
    pub fn has_part_ack(&self) -> bool
        ensures { result ≡ is_some self.now.state.part_ack }
    {
        self.node.has_part_ack()
    }

    /// What a peer didn't acknowledge is sent again, of both priorities. False exactly where nothing is unacknowledged,
    /// and then nothing changes.
    pub fn expire(&mut self, peer: u16) -> bool
        requires { peer < self.old.hosts }
        ensures told { result ≡ nat_lt 0 (unacknowledged_to self.old.state peer) }
        ensures after { self.new ≡ in_state self.old (if result then node_expired self.old.state peer
            else self.old.state) }
    {
        self.node.expire(peer)
    }

    /// The epoch of its active table.
    pub fn active(&self) -> Option<u32>
        ensures { result ≡ active_epoch self.now.state.table }
    {
        self.node.active()
    }

    /// The messages of a priority that were accepted for a peer, in order.
    pub fn sent(&self, peer: u16, prio: u8) -> &[Message]
        requires peer { peer < self.now.hosts }
        requires prio { is_prio prio ≡ true }
        ensures { result.now ≡ (lane_at self.now.state (lane_of peer prio)).sent }
    {
        self.node.sent(peer, prio)
    }

    /// The messages of a priority that were taken from a peer, in order.
    pub fn got(&self, peer: u16, prio: u8) -> &[Message]
        requires peer { peer < self.now.hosts }
        requires prio { is_prio prio ≡ true }
        ensures { result.now ≡ (lane_at self.now.state (lane_of peer prio)).got }
    {
        self.node.got(peer, prio)
    }

    /// How many fragments to a peer aren't acknowledged, sent or not, of both priorities.
    pub fn unacked(&self, peer: u16) -> u64
        requires { peer < self.now.hosts }
        ensures sum { result ≡ unacknowledged_to self.now.state peer }
        ensures few { result ≤ 8589934590 }
    {
        self.node.unacked(peer)
    }

    /// The least peer that isn't below an address and to which something isn't acknowledged, sent or not, if there is
    /// one.
    pub fn next_unacked(&self, from: u16) -> Option<u16>
        ensures found { IfSome result (IsNextUnacked self.now.state self.now.hosts from) }
        ensures none { IfNone result ((peer : ℕ) → from ≤ peer → unacknowledged_to self.now.state peer ≡ 0) }
    {
        self.node.next_unacked(from)
    }

    /// Whether it has something to send.
    pub fn has_to_send(&self) -> bool
        ensures { result ≡ is_some (to_send self.now.host self.now.state) }
    {
        self.node.has_to_send()
    }

    /// What it sends first. None exactly where it has nothing to send.
    pub fn next_send(&self) -> Option<NextSend>
        ensures first { option_and_then (chosen self.now.host self.now.state) result
            ≡ to_send self.now.host self.now.state }
        ensures there { IfSome result (λ next. is_some (chosen self.now.host self.now.state next) ≡ true) }
    {
        self.node.next_send()
    }

    /// A packet becomes the one of something that it has to send, injected under a number, in the buffer that it has.
    /// The host stays as it is: see [`ClientHost::sent_as`]. Where memory runs out, the packet may be any.
    pub fn write_packet(
        &self,
        alloc: Global,
        next: NextSend,
        number: u64,
        bytes: &mut Vec<u8>,
        packet: &mut Packet,
    ) -> Result<(), AllocError>
        requires { is_some (chosen self.now.host self.now.state next) ≡ true }
        ensures { OnOk result (Some packet.new ≡ option_map (packet_for self.now.host number)
            (chosen self.now.host self.now.state next)) }
    {
        self.node.write_packet(alloc, next, number, bytes, packet)
    }

    /// Something that it has to send counts as sent.
    pub fn sent_as(&mut self, next: NextSend)
        requires { is_some (chosen self.old.host self.old.state next) ≡ true }
        ensures { self.new ≡ in_state self.old
            (once_sent self.old.state (chosen self.old.host self.old.state next)) }
    {
        self.node.sent_as(next);
    }

    /// Spends the host and all tokens and buffers of its ports, those of open ports too. Takes no memory.
    pub fn end(self) {
        let ClientHost {
            node,
            clients,
            rooms: _,
        } = self;
        end_clients(node, clients);
    }
}

// A place for the client of each port, and no client.
fn no_clients(alloc: Global) -> Result<Vec<Option<Client>>, AllocError>
    ensures { IfOk result (λ v. v.items ≡ replicate port_count None) }
{
    let mut clients = Vec::with_capacity(alloc, PORTS)?;
    for _ in 0..PORTS {
        clients.push_reserved(None);
    }
    Ok(clients)
}
