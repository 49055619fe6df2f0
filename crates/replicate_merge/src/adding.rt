//! Ways added one by one to what is known of where ways begin.

ghost use Rattle.std.specs.Prelude.{◌≡◌, ◌<◌, ◌≤◌, ◌+◌, ◌*◌, List, Option, pos, length, vec_len, vec_capacity};
ghost use Rattle.net_defs.specs.Turn.{IsTurn};
ghost use Rattle.replicate_merge.specs.Ends.{place_of};
ghost use Rattle.replicate_merge.specs.Adding.{AddsEnd, known_at, node_of_host};
ghost use Rattle.replicate_merge.specs.Work.{far_end};
ghost use Rattle.replicate_merge.specs.declared.meeting.HostNode.{HostNode};
ghost use Rattle.port_align.specs.declared.end.NodePort.{NodePort};
ghost use Rattle.replicate_merge.specs.declared.way.Spot.TheVariants.{Address, Port};

use crate::ends::{end_at, set_end};
use crate::meeting::{HostNode, Meeting};
use crate::way::Way;
use port_align::{NodePort, PortTable};

/// The port of a node at which a way ends.
pub(crate) fn far_end(way: &Way) -> NodePort
    ensures { result ≡ far_end way.now }
{
    match way {
        Way::Host { address: _, node } => NodePort {
            node: *node,
            port: 0,
        },
        Way::Cable {
            from: _,
            port: _,
            to,
            entry,
        } => NodePort {
            node: *to,
            port: *entry,
        },
    }
}

/// Adds a way from a host's address to a node.
pub(crate) fn add_host(hosts: &mut Vec<HostNode>, todo: &mut Vec<Meeting>, address: u16, node: u32)
    requires place { vec_len hosts.old < vec_capacity hosts.old }
    requires room { vec_len todo.old < vec_capacity todo.old }
    ensures adds { (ends : List (Option NodePort)) →
        AddsEnd (Address address) (record { node = node; port = pos 0 }) (known_at hosts.old.items ends)
        (known_at hosts.new.items ends) todo.old.items todo.new.items }
    ensures few { vec_len todo.new ≤ vec_len todo.old + 1 }
    ensures capacity { vec_capacity todo.new ≡ vec_capacity todo.old }
    ensures few_hosts { vec_len hosts.new ≤ vec_len hosts.old + 1 }
    ensures host_capacity { vec_capacity hosts.new ≡ vec_capacity hosts.old }
{
    match node_of_host(hosts, address) {
        None => hosts.push_reserved(HostNode { address, node }),
        Some(known) => todo.push_reserved(Meeting {
            first: NodePort {
                node: known,
                port: 0,
            },
            second: NodePort { node, port: 0 },
        }),
    }
}

/// Adds a way from a port of a class to a port of a node.
pub(crate) fn add_end(
    ends: &mut PortTable,
    todo: &mut Vec<Meeting>,
    class: u32,
    port: i16,
    end: NodePort,
)
    requires turn { IsTurn port }
    requires inside { place_of class port < length ends.old.items }
    requires room { vec_len todo.old < vec_capacity todo.old }
    ensures adds { (hosts : List HostNode) → AddsEnd (Port class port) end (known_at hosts ends.old.items)
        (known_at hosts ends.new.items) todo.old.items todo.new.items }
    ensures same { length ends.new.items ≡ length ends.old.items }
    ensures few { vec_len todo.new ≤ vec_len todo.old + 1 }
    ensures capacity { vec_capacity todo.new ≡ vec_capacity todo.old }
{
    match end_at(ends, class, port) {
        None => set_end(ends, class, port, Some(end)),
        Some(first) => todo.push_reserved(Meeting { first, second: end }),
    }
}

// The node that is known of a host's address. A fabric has at most 128 hosts.
fn node_of_host(hosts: &[HostNode], address: u16) -> Option<u32>
    ensures { result ≡ node_of_host hosts.now address }
{
    match hosts {
        [] => None,
        [host, rest @ ..] => {
            if host.address == address {
                Some(host.node)
            } else {
                node_of_host(rest, address)
            }
        }
    }
}
