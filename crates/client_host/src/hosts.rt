//! The hosts of a world, by address: all made before anything happened, and all spent.

ghost use Rattle.std.specs.Prelude.{◌≡◌, [], replicate, vec_len, vec_capacity, None, IfOk, OnOk};
ghost use Rattle.world_defs.specs.Node.{new_node, port_count};
ghost use Rattle.client_host.specs.Hosts.{states, clients_of, AreHosts};

use crate::host::ClientHost;
use std::alloc::{AllocError, Global};
use std::collections::VecDeque;

/// So many hosts, before anything happened.
pub fn new_hosts(alloc: Global, hosts: u16) -> Result<Vec<ClientHost>, AllocError>
    ensures hosts { IfOk result (λ v. AreHosts v.items) }
    ensures states { IfOk result (λ v. states v.items ≡ replicate hosts (new_node hosts)) }
    ensures clients { IfOk result (λ v. clients_of v.items ≡ replicate hosts (replicate port_count None)) }
{
    let mut nodes = Vec::with_capacity(alloc, usize::from(hosts))?;
    match push_hosts(alloc, &mut nodes, hosts) {
        Ok(()) => Ok(nodes),
        Err(wanting) => {
            end_hosts(nodes);
            Err(wanting)
        }
    }
}

// All of so many hosts, one after the other, where there is none yet and room for each.
fn push_hosts(alloc: Global, nodes: &mut Vec<ClientHost>, hosts: u16) -> Result<(), AllocError>
    requires none { nodes.old.items ≡ [] }
    requires len { vec_len nodes.old ≡ 0 }
    requires room { vec_capacity nodes.old ≡ hosts }
    ensures hosts { OnOk result (AreHosts nodes.new.items) }
    ensures states { OnOk result (states nodes.new.items ≡ replicate hosts (new_node hosts)) }
    ensures clients { OnOk result (clients_of nodes.new.items ≡ replicate hosts (replicate port_count None)) }
{
    for host in 0..hosts {
        let node = ClientHost::new(alloc, host, hosts)?;
        nodes.push_reserved(node);
    }
    Ok(())
}

/// Spends hosts, with whatever their ports hold. Takes no memory.
pub fn end_hosts(hosts: Vec<ClientHost>) {
    let mut rest = VecDeque::from_vec(hosts);
    while let Some(node) = rest.pop_front() {
        node.end();
    }
    rest.destroy_empty();
}
