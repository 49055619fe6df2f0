//! A port is closed.

ghost use Rattle.std.specs.Prelude.{◌≡◌, ◌<◌, ◌++◌, is_some, true, None, IfSome};
ghost use Rattle.world_defs.specs.Node.{port_at};
ghost use Rattle.world_defs.specs.Client.{closed};
ghost use Rattle.world_defs.specs.Sound.{IsEachOnce};
ghost use Rattle.nic_node.specs.Held.{in_state};
ghost use Rattle.port_client.specs.Back.{numbers_with, AreOwnWith};
ghost use Rattle.client_host.specs.Tied.{held_of, now_holding, IsTied};

use crate::telling::{close_cause, minted_of};
use gm_tokens::RecvToken;
use nic_node::NicNode;
use port_client::{Client, retire, take_back_recvs};
use reg_mem::{Reg, Rooms};
use std::alloc::Global;
use world_defs::{ClientCause, Said};

/// Closes a port, and ends its client with all of its tokens. The rooms of buffers in which nothing was written are
/// kept. Takes no memory.
pub(crate) fn close(
    alloc: Global,
    node: &mut NicNode,
    slot: &mut Option<Client>,
    rooms: &mut Rooms,
    port: u8,
) -> Said
    requires port { port < 8 }
    requires tied { IsTied node.old.host node.old.hosts port (port_at node.old.state port) slot.old }
    ensures said { result ≡ (closed node.old.state port (held_of slot.old)).said }
    ensures node { node.new ≡ in_state node.old (closed node.old.state port (held_of slot.old)).node }
    ensures client { slot.new ≡ now_holding slot.old (closed node.old.state port (held_of slot.old)).client }
{
    match minted_of(slot) {
        Some(_minted) => close_open(alloc, node, slot, rooms, port),
        None => Said::Refused(ClientCause::NotOpen),
    }
}

// Closes an open port.
fn close_open(
    alloc: Global,
    node: &mut NicNode,
    slot: &mut Option<Client>,
    rooms: &mut Rooms,
    port: u8,
) -> Said
    requires port { port < 8 }
    requires tied { IsTied node.old.host node.old.hosts port (port_at node.old.state port) slot.old }
    requires few { IfSome slot.old (λ c. (c.minted_sends < 65536) × (c.minted_recvs < 65536)) }
    requires there { is_some slot.old ≡ true }
    ensures said { result ≡ (closed node.old.state port (held_of slot.old)).said }
    ensures node { node.new ≡ in_state node.old (closed node.old.state port (held_of slot.old)).node }
    ensures client { slot.new ≡ now_holding slot.old (closed node.old.state port (held_of slot.old)).client }
{
    match node.close(port) {
        Ok(provided) => {
            let count = provided.len() as u32;
            end_closed(alloc, slot, provided, rooms);
            Said::Count(count)
        }
        Err(refusal) => Said::Refused(close_cause(refusal)),
    }
}

// Ends the client of a port that was closed, with the tokens that were provided.
fn end_closed(
    alloc: Global,
    slot: &mut Option<Client>,
    provided: Vec<(RecvToken, Reg)>,
    rooms: &mut Rooms,
)
    requires own { IfSome slot.old (λ c. AreOwnWith c.host c.port provided.items) }
    requires sends { IfSome slot.old (λ c. IsEachOnce c.minted_sends c.held.sends) }
    requires recvs { IfSome slot.old (λ c. IsEachOnce c.minted_recvs (c.held.recvs ++ numbers_with provided.items)) }
    requires open { is_some slot.old ≡ true }
    ensures { slot.new ≡ None }
{
    match slot.take() {
        Some(client) => {
            let mut client = client;
            take_back_recvs(&mut client, provided, rooms);
            retire(alloc, client);
        }
        None => unreachable!(),
    }
}
