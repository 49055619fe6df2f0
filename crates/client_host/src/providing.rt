//! A receive token is provided with a buffer.

ghost use Rattle.std.specs.Prelude.{◌≡◌, ◌<◌, is_some, true, false, Some, None, option_map, IfOk, IfErr, OnOk};
ghost use Rattle.std.specs.Prelude.{OnErr, MatchResult, ◌||◌};
ghost use Rattle.std.specs.Option.{ForSome};
ghost use Rattle.gm_defs.specs.Token.{place_of_recv};
ghost use Rattle.gm_defs.specs.Port.{is_bad_size, provided_with};
ghost use Rattle.gm_tokens.specs.Token.{token_at};
ghost use Rattle.world_defs.specs.Node.{port_at, with_port};
ghost use Rattle.world_defs.specs.Client.{empty_buffer, provided_by};
ghost use Rattle.nic_node.specs.Held.{in_state};
ghost use Rattle.client_host.specs.Telling.{size_cause, is_refused};
ghost use Rattle.client_host.specs.Tied.{held_of, now_holding, IsTied};

use crate::telling::refused;
use gm_tokens::RecvToken;
use nic_node::NicNode;
use port_client::{Client, zero_buffer_in};
use reg_mem::Rooms;
use std::alloc::{AllocError, Global};
use world_defs::{ClientCause, Said};

/// The client provides the receive token that it has held longest: refused where the port isn't open, where the
/// client holds no such token, and then for its size or priority.
pub(crate) fn provide(
    alloc: Global,
    node: &mut NicNode,
    slot: &mut Option<Client>,
    rooms: &mut Rooms,
    port: u8,
    size: u8,
    prio: u8,
) -> Result<Said, AllocError>
    requires port { port < 8 }
    requires tied { IsTied node.old.host node.old.hosts port (port_at node.old.state port) slot.old }
    ensures said { IfOk result (λ said. said ≡ (provided_by node.old.state port size prio (held_of slot.old)).said) }
    ensures node { OnOk result (node.new ≡ in_state node.old
        (provided_by node.old.state port size prio (held_of slot.old)).node) }
    ensures client { OnOk result (slot.new ≡ now_holding slot.old
        (provided_by node.old.state port size prio (held_of slot.old)).client) }
    ensures wanting { OnErr result (is_refused
        (provided_by node.old.state port size prio (held_of slot.old)).said ≡ false) }
    ensures node_stays { OnErr result (node.new ≡ node.old) }
    ensures client_stays { OnErr result (slot.new ≡ slot.old) }
{
    match slot {
        Some(client) => provide_open(alloc, node, client, rooms, port, size, prio),
        None => Ok(Said::Refused(ClientCause::NotOpen)),
    }
}

// The client of an open port provides its first receive token.
fn provide_open(
    alloc: Global,
    node: &mut NicNode,
    client: &mut Client,
    rooms: &mut Rooms,
    port: u8,
    size: u8,
    prio: u8,
) -> Result<Said, AllocError>
    requires port { port < 8 }
    requires tied { IsTied node.old.host node.old.hosts port (port_at node.old.state port) (Some client.old) }
    ensures said { IfOk result (λ said.
        said ≡ (provided_by node.old.state port size prio (Some client.old.held)).said) }
    ensures node { OnOk result (node.new ≡ in_state node.old
        (provided_by node.old.state port size prio (Some client.old.held)).node) }
    ensures client { OnOk result (Some client.new
        ≡ now_holding (Some client.old) (provided_by node.old.state port size prio (Some client.old.held)).client) }
    ensures wanting { OnErr result (is_refused
        (provided_by node.old.state port size prio (Some client.old.held)).said ≡ false) }
    ensures node_stays { OnErr result (node.new ≡ node.old) }
    ensures client_stays { OnErr result (client.new ≡ client.old) }
{
    match client.take_recv() {
        Some(token) => match provide_token(alloc, node, rooms, port, token, size, prio) {
            Ok(number) => Ok(Said::Token(number)),
            Err((token, cause)) => {
                client.return_recv(token);
                refused(cause)
            }
        },
        None => Ok(Said::Refused(ClientCause::NoToken)),
    }
}

// A token is provided with a new buffer. It comes back where that is refused, with the cause, or where memory runs
// out, with none.
fn provide_token(
    alloc: Global,
    node: &mut NicNode,
    rooms: &mut Rooms,
    port: u8,
    token: RecvToken,
    size: u8,
    prio: u8,
) -> Result<u16, (RecvToken, Option<ClientCause>)>
    requires port { port < 8 }
    requires open { is_some (port_at node.old.state port) ≡ true }
    requires own { token ≡ token_at node.old.host port token.number }
    requires minted { ForSome (port_at node.old.state port) (λ p. token.number < p.recvs) }
    requires free { ForSome (port_at node.old.state port) (λ p. place_of_recv p token.number ≡ None) }
    ensures refused { MatchResult result (λ _. size_cause size prio ≡ None) (λ e. e.1 ≡ size_cause size prio) }
    ensures number { IfOk result (λ n. n ≡ token.number) }
    ensures provided { OnOk result (node.new ≡ in_state node.old
        (with_port node.old.state port (option_map (λ p.
        provided_with p (record {
          token = token.number;
          size = size;
          prio = prio;
          filling = None;
          buffer = empty_buffer size;
        })) (port_at node.old.state port)))) }
    ensures handed_back { IfErr result (λ e. e.0 ≡ token) }
    ensures unchanged { OnErr result (node.new ≡ node.old) }
{
    if is_bad_size(size, prio) {
        return Err((token, Some(ClientCause::BadSize)));
    }
    match zero_buffer_in(alloc, size, rooms) {
        Ok(buffer) => {
            let number = token.number();
            match node.provide(port, token, buffer, size, prio) {
                Ok(()) => Ok(number),
                Err(_) => unreachable!(),
            }
        }
        Err(_) => Err((token, None)),
    }
}

// Whether no buffer is provided with this size and this priority.
fn is_bad_size(size: u8, prio: u8) -> bool
    ensures { result ≡ is_bad_size size prio }
{
    size < 4 || size > 16 || prio > 1
}
