//! All clients end, also those of open ports, and their host with them.

ghost use Rattle.std.specs.Prelude.{◌≡◌, ◌<◌, Some};
ghost use Rattle.world_defs.specs.Node.{port_at};
ghost use Rattle.nic_node.specs.Ending.{abandoned};
ghost use Rattle.client_host.specs.Tied.{IsTied, IsEnding};

use nic_node::NicNode;
use port_client::{Client, end_wreck};
use std::alloc::Global;

/// Ends each open port of a host, whatever it holds, its client with all of its tokens, and then the host. Takes no
/// memory.
pub(crate) fn end_clients(mut node: NicNode, mut clients: Vec<Option<Client>>)
    requires { IsEnding node clients.items }
{
    let alloc = *clients.allocator();
    while let Some(slot) = clients.pop() {
        let port = clients.len() as u8;
        if let Some(client) = slot {
            end_client(alloc, &mut node, client, port);
        }
    }
    clients.destroy_empty();
    node.end();
}

// Ends an open port and its client.
fn end_client(alloc: Global, node: &mut NicNode, client: Client, port: u8)
    requires port { port < 8 }
    requires tied { IsTied node.old.host node.old.hosts port (port_at node.old.state port) (Some client) }
    ensures { node.new ≡ abandoned node.old port }
{
    match node.abandon(port) {
        Some(wreck) => end_wreck(alloc, client, wreck),
        None => unreachable!(),
    }
}
