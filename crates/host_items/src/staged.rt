//! A probe or a part that a host was told to send.

ghost use Rattle.std.specs.Prelude.{◌≡◌, ◌≤◌, length, true, false, [], IfOk, OnOk, OnErr};
ghost use Rattle.packet_defs.specs.Packet.{packet_of, with_crc};
ghost use Rattle.world_defs.specs.Mapping.{MappingBody, mapping_bytes, is_part};
ghost use Rattle.world_defs.specs.Node.{outgoing_staged, probe_packet, packet_for};
ghost use Rattle.host_items.specs.Held.{staged_of, IsSendable};

use crate::heads::{host_head, loop_head};
use myri_packet::{Kind, Packet, packet_front, seal};
use net_defs::Walk;
use route_parts::RoutePart;
use std::alloc::{AllocError, Global};

/// What a host was told to send.
#[derive(Debug, Drop)]
pub(crate) enum StagedItem {
    /// A probe of a walk. A looped one returns to its host.
    Probe { walk: Walk, looped: bool },
    /// A part of a table, by a route.
    Part { part: RoutePart, by: Walk },
}

impl StagedItem {
    /// Its packet, injected by a host under a number.
    #[tactic(auto, unfolding(world_defs::specs::Node::packet_for))]
    pub(crate) fn packet(&self, alloc: Global, host: u16, number: u64) -> Result<Packet, AllocError>
        requires { IsSendable (staged_of self.now) }
        ensures { IfOk result (λ p. p ≡ packet_for host number (outgoing_staged (staged_of self.now))) }
    {
        match self {
            StagedItem::Probe { walk, looped } => {
                probe_packet(alloc, host, number, walk, *looped)
            }
            StagedItem::Part { part, by } => part_packet(alloc, part, by),
        }
    }
}

// The packet of a probe of a walk, in a buffer of its own.
fn probe_packet(
    alloc: Global,
    host: u16,
    number: u64,
    walk: &Walk,
    looped: bool,
) -> Result<Packet, AllocError>
    requires { looped ≡ true → length walk.now ≤ 31 }
    ensures { IfOk result (λ p. p ≡ probe_packet host number walk.now looped) }
{
    let mut packet = Packet::unwritten(alloc);
    write_probe(&mut packet, host, number, walk, looped)?;
    Ok(packet)
}

/// A packet becomes the one of a probe of a walk, injected by a host under a number, in the buffer that it has. A
/// looped probe returns to its host: its walk has at most 31 turns. Where memory runs out the packet is as unwritten.
#[inline(always)]
pub fn write_probe(
    packet: &mut Packet,
    host: u16,
    number: u64,
    walk: &Walk,
    looped: bool,
) -> Result<(), AllocError>
    requires { looped ≡ true → length walk.now ≤ 31 }
    ensures ok { OnOk result (packet.new ≡ probe_packet host number walk.now looped) }
    ensures err { OnErr result (packet.new ≡ with_crc []) }
{
    if looped {
        write_loop_probe(packet, host, number, walk)
    } else {
        write_host_probe(packet, host, number, walk)
    }
}

// The packet of a probe that asks a host.
#[inline(always)]
fn write_host_probe(
    packet: &mut Packet,
    host: u16,
    number: u64,
    walk: &Walk,
) -> Result<(), AllocError>
    ensures ok { OnOk result (packet.new ≡ probe_packet host number walk.now false) }
    ensures err { OnErr result (packet.new ≡ with_crc []) }
{
    let turns = walk.turns();
    let head = host_head(turns, number, host);
    packet.write(&head[..2 * turns.len() + 14])
}

// The packet of a probe that returns.
#[inline(always)]
fn write_loop_probe(
    packet: &mut Packet,
    host: u16,
    number: u64,
    walk: &Walk,
) -> Result<(), AllocError>
    requires { length walk.now ≤ 31 }
    ensures ok { OnOk result (packet.new ≡ probe_packet host number walk.now true) }
    ensures err { OnErr result (packet.new ≡ with_crc []) }
{
    let turns = walk.turns();
    let head = loop_head(turns, number, host);
    packet.write(&head[..2 * turns.len() + 14])
}

// Room for a part of a table whose routes are short.
const PART_ROOM: usize = 128;

// The packet of a part of a table. Its body is written into the packet's own buffer.
fn part_packet(alloc: Global, part: &RoutePart, by: &Walk) -> Result<Packet, AllocError>
    requires { is_part part.now ≡ true }
    ensures { IfOk result (λ p. p ≡ packet_of by.now Kind.Mapping (mapping_bytes (MappingBody.Part part.now))) }
{
    let mut bytes = packet_front(alloc, by.turns(), Kind::Mapping, PART_ROOM)?;
    part.append(&mut bytes)?;
    seal(bytes)
}
