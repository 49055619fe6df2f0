//! A port is opened.

ghost use Rattle.std.specs.Prelude.{◌≡◌, ◌<◌, false, IfOk, OnOk, OnErr};
ghost use Rattle.world_defs.specs.Node.{port_at};
ghost use Rattle.world_defs.specs.Client.{begun};
ghost use Rattle.nic_node.specs.Held.{in_state};
ghost use Rattle.client_host.specs.Telling.{is_refused};
ghost use Rattle.client_host.specs.Tied.{held_of, opened_where, IsTied};

use nic_node::{NicNode, NodeBegin};
use port_client::{Client, retire};
use std::alloc::{AllocError, Global};
use world_defs::{ClientCause, Said};

/// Opens a port, where it isn't open, and mints its tokens for its client.
#[tactic(auto, unfolding(world_defs::specs::Client::begun))]
pub(crate) fn begin(
    alloc: Global,
    node: &mut NicNode,
    slot: &mut Option<Client>,
    port: u8,
    sends: u16,
    recvs: u16,
) -> Result<Said, AllocError>
    requires port { port < 8 }
    requires tied { IsTied node.old.host node.old.hosts port (port_at node.old.state port) slot.old }
    ensures said { IfOk result (λ said. said ≡ (begun node.old.state port sends recvs (held_of slot.old)).said) }
    ensures node { OnOk result (node.new ≡ in_state node.old
        (begun node.old.state port sends recvs (held_of slot.old)).node) }
    ensures client { OnOk result (slot.new ≡ opened_where node.old.host port sends recvs slot.old) }
    ensures wanting { OnErr result (is_refused
        (begun node.old.state port sends recvs (held_of slot.old)).said ≡ false) }
    ensures node_stays { OnErr result (node.new ≡ node.old) }
    ensures client_stays { OnErr result (slot.new ≡ slot.old) }
{
    if slot.is_some() {
        return Ok(Said::Refused(ClientCause::Already));
    }
    let client = Client::open(alloc, node.host(), port, sends, recvs)?;
    match node.begin(alloc, port, sends, recvs) {
        Ok(()) => {
            put(slot, client);
            Ok(Said::Done)
        }
        Err(NodeBegin::NoMemory) => {
            retire(alloc, client);
            Err(AllocError)
        }
        Err(NodeBegin::Already) => unreachable!(),
    }
}

// Puts a client into an empty place.
fn put(slot: &mut Option<Client>, client: Client)
    requires { slot.old ≡ None }
    ensures { slot.new ≡ Some client }
{
    if let Some(_lost) = slot.replace(client) {
        unreachable!();
    }
}
