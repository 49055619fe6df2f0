//! An event is polled.

ghost use Rattle.std.specs.Prelude.{◌≡◌, ◌<◌, Some};
ghost use Rattle.world_defs.specs.Node.{port_at};
ghost use Rattle.world_defs.specs.Client.{polled_by};
ghost use Rattle.nic_node.specs.Held.{in_state};
ghost use Rattle.client_host.specs.Held.{IsFromHosts};
ghost use Rattle.client_host.specs.Tied.{held_of, now_holding, IsTied};

use nic_node::NicNode;
use port_client::{Client, take_back};
use world_defs::{ClientCause, Said};

/// The client takes the first event of its port's queue. Takes no memory.
pub(crate) fn poll(node: &mut NicNode, slot: &mut Option<Client>, port: u8) -> Said
    requires port { port < 8 }
    requires tied { IsTied node.old.host node.old.hosts port (port_at node.old.state port) slot.old }
    ensures said { result ≡ (polled_by node.old.state port (held_of slot.old)).said }
    ensures node { node.new ≡ in_state node.old (polled_by node.old.state port (held_of slot.old)).node }
    ensures client { slot.new ≡ now_holding slot.old (polled_by node.old.state port (held_of slot.old)).client }
{
    match slot {
        Some(client) => poll_open(node, client, port),
        None => Said::Refused(ClientCause::NotOpen),
    }
}

// The client of an open port takes the first event.
fn poll_open(node: &mut NicNode, client: &mut Client, port: u8) -> Said
    requires port { port < 8 }
    requires tied { IsTied node.old.host node.old.hosts port (port_at node.old.state port) (Some client.old) }
    ensures said { result ≡ (polled_by node.old.state port (Some client.old.held)).said }
    ensures node { node.new ≡ in_state node.old (polled_by node.old.state port (Some client.old.held)).node }
    ensures client { Some client.new ≡ now_holding (Some client.old)
        (polled_by node.old.state port (Some client.old.held)).client }
{
    match node.poll(port) {
        Ok(Some(event)) => take_back(client, event),
        Ok(None) => Said::Nothing,
        Err(_) => Said::Refused(ClientCause::NotOpen),
    }
}
