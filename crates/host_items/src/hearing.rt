//! A body of the mapper's protocol came that leaves the table as it is.

ghost use Rattle.std.specs.Prelude.{◌≡◌, ℕ};
ghost use Rattle.std.specs.List.{list_all};
ghost use Rattle.world_defs.specs.Mapping.{MappingBody};
ghost use Rattle.world_defs.specs.Node.{NodeState};
ghost use Rattle.world_defs.specs.Hearing.{OfMapper, is_host, is_part_for, hear_body};
ghost use Rattle.probe.specs.Body.{said};
ghost use Rattle.route_parts.specs.Reading.{ack_body};
ghost use Rattle.host_items.specs.Held.{with_items};
ghost use Rattle.host_items.specs.Reading.{arrival_where};

use crate::items::Items;
use net_defs::Walk;
use probe::ProbeBody;
use route_parts::{PartAck, RoutePart, TableEntry};
use world_defs::{Arrival, Heard};

impl Items {
    /// A probe came, or the reply to one, to a host among so many. Whatever else the host has, it is heard as the
    /// world's host hears it.
    pub fn hear(&mut self, host: u16, hosts: u16, body: ProbeBody) -> Arrival
        ensures { (n : NodeState) → hear_body host hosts (with_items n self.old) (OfMapper (said body))
            ≡ (result, with_items n self.new) }
    {
        match body {
            ProbeBody::HostProbe {
                number,
                mapper,
                back,
            } => self.hear_host_probe(hosts, number, mapper, back),
            ProbeBody::HostReply { number, host: from } => {
                heard_where(from < hosts, Heard::Reply { number, host: from })
            }
            ProbeBody::Loop { number, mapper } => {
                heard_where(mapper == host, Heard::Loop { number })
            }
        }
    }

    // A host probe came: its reply is staged, in the place of an earlier one.
    fn hear_host_probe(&mut self, hosts: u16, number: u64, mapper: u16, back: Walk) -> Arrival
        ensures { (host : ℕ) (n : NodeState) → hear_body host hosts (with_items n self.old)
            (OfMapper (MappingBody.HostProbe number mapper back)) ≡ (result, with_items n self.new) }
    {
        if mapper < hosts {
            self.reply(number, back);
            Arrival::Heard(Heard::Probe)
        } else {
            Arrival::NotMine
        }
    }
}

/// The acknowledgement of a part came to a host among so many: it is heard, and changes nothing.
pub fn hear_ack(hosts: u16, ack: &PartAck) -> Arrival
    ensures { (host : ℕ) (n : NodeState) → hear_body host hosts n (OfMapper (ack_body ack.now)) ≡ (result, n) }
{
    let heard = Heard::RoutesAck {
        epoch: ack.epoch,
        host: ack.host,
        part: ack.part,
    };
    heard_where(ack.host < hosts, heard)
}

/// Whether a part is for a host among so many, and all addresses in it are hosts.
pub fn is_part_for(host: u16, hosts: u16, part: &RoutePart) -> bool
    ensures { result ≡ is_part_for host hosts part.now }
{
    part.dst == host && part.mapper < hosts && are_to_hosts(part.entries.list(), hosts)
}

// What was heard where a test holds; else the packet isn't for this host.
fn heard_where(holds: bool, heard: Heard) -> Arrival
    ensures { result ≡ arrival_where holds heard }
{
    if holds {
        Arrival::Heard(heard)
    } else {
        Arrival::NotMine
    }
}

// Whether all entries lead to hosts.
fn are_to_hosts(entries: &[TableEntry], hosts: u16) -> bool
    ensures { result ≡ list_all (λ e. is_host hosts e.to) entries.now }
{
    entries.iter().all(|entry| entry.to < hosts)
}
