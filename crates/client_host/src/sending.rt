//! A message is sent.

ghost use Rattle.std.specs.Prelude.{◌≡◌, ◌≢◌, ◌<◌, length, is_some, true, false, Some, None};
ghost use Rattle.std.specs.Prelude.{IfOk, IfErr, OnOk, OnErr, MatchResult};
ghost use Rattle.std.specs.Option.{ForSome};
ghost use Rattle.gm_defs.specs.Token.{place_of_send};
ghost use Rattle.gm_tokens.specs.Token.{token_at};
ghost use Rattle.world_defs.specs.Node.{port_at};
ghost use Rattle.world_defs.specs.Client.{client_bytes, sent_by};
ghost use Rattle.world_defs.specs.Step.{wanted};
ghost use Rattle.nic_node.specs.Held.{in_state};
ghost use Rattle.nic_node.specs.Accepting.{ask_bar, accepted};
ghost use Rattle.client_host.specs.Telling.{send_cause, ask_refusal, is_refused};
ghost use Rattle.client_host.specs.Tied.{held_of, now_holding, IsTied};

use crate::telling::refused;
use gm_tokens::SendToken;
use nic_node::{NicNode, NodeSend, SendAsk};
use port_client::{Client, client_buffer};
use reg_mem::{Reg, release};
use std::alloc::{AllocError, Global};
use world_defs::{ClientCause, Said};

/// The client sends with the send token that it has held longest: refused where the port isn't open, where the client
/// holds no such token, and then for the message.
pub(crate) fn send(
    alloc: Global,
    node: &mut NicNode,
    slot: &mut Option<Client>,
    port: u8,
    a: SendAsk,
    seed: u8,
) -> Result<Said, AllocError>
    requires port { port < 8 }
    requires tied { IsTied node.old.host node.old.hosts port (port_at node.old.state port) slot.old }
    requires dest { a.dest < node.old.hosts }
    requires dport { a.dport < 8 }
    requires prio { a.prio < 2 }
    ensures said { IfOk result (λ said.
        said ≡ (sent_by node.old.state (wanted port a.dest a.dport a.prio a.len seed) (held_of slot.old)).said) }
    ensures node { OnOk result (node.new ≡ in_state node.old
        (sent_by node.old.state (wanted port a.dest a.dport a.prio a.len seed) (held_of slot.old)).node) }
    ensures client { OnOk result (slot.new ≡ now_holding slot.old
        (sent_by node.old.state (wanted port a.dest a.dport a.prio a.len seed) (held_of slot.old)).client) }
    ensures wanting { OnErr result (is_refused (sent_by node.old.state
        (wanted port a.dest a.dport a.prio a.len seed) (held_of slot.old)).said ≡ false) }
    ensures node_stays { OnErr result (node.new ≡ node.old) }
    ensures client_stays { OnErr result (slot.new ≡ slot.old) }
{
    match slot {
        Some(client) => send_open(alloc, node, client, port, a, seed),
        None => Ok(Said::Refused(ClientCause::NotOpen)),
    }
}

// The client of an open port sends with its first send token.
fn send_open(
    alloc: Global,
    node: &mut NicNode,
    client: &mut Client,
    port: u8,
    a: SendAsk,
    seed: u8,
) -> Result<Said, AllocError>
    requires port { port < 8 }
    requires tied { IsTied node.old.host node.old.hosts port (port_at node.old.state port) (Some client.old) }
    requires dest { a.dest < node.old.hosts }
    requires dport { a.dport < 8 }
    requires prio { a.prio < 2 }
    ensures said { IfOk result (λ said.
        said ≡ (sent_by node.old.state (wanted port a.dest a.dport a.prio a.len seed) (Some client.old.held)).said) }
    ensures node { OnOk result (node.new ≡ in_state node.old
        (sent_by node.old.state (wanted port a.dest a.dport a.prio a.len seed) (Some client.old.held)).node) }
    ensures client { OnOk result (Some client.new
        ≡ now_holding (Some client.old) (sent_by node.old.state (wanted port a.dest a.dport a.prio a.len seed)
        (Some client.old.held)).client) }
    ensures wanting { OnErr result (is_refused (sent_by node.old.state
        (wanted port a.dest a.dport a.prio a.len seed) (Some client.old.held)).said ≡ false) }
    ensures node_stays { OnErr result (node.new ≡ node.old) }
    ensures client_stays { OnErr result (client.new ≡ client.old) }
{
    match client.take_send() {
        Some(token) => match send_token(alloc, node, port, token, a, seed) {
            Ok(number) => Ok(Said::Token(number)),
            Err((token, cause)) => {
                client.return_send(token);
                refused(cause)
            }
        },
        None => Ok(Said::Refused(ClientCause::NoToken)),
    }
}

// A token sends the message of a new buffer. It comes back exactly where that is refused, with the cause, or where
// memory runs out, with none. The host is asked before any memory is.
fn send_token(
    alloc: Global,
    node: &mut NicNode,
    port: u8,
    token: SendToken,
    a: SendAsk,
    seed: u8,
) -> Result<u16, (SendToken, Option<ClientCause>)>
    requires port { port < 8 }
    requires open { is_some (port_at node.old.state port) ≡ true }
    requires own { token ≡ token_at node.old.host port token.number }
    requires minted { ForSome (port_at node.old.state port) (λ p. token.number < p.sends) }
    requires free { ForSome (port_at node.old.state port) (λ p. place_of_send p token.number ≡ None) }
    requires dest { a.dest < node.old.hosts }
    requires dport { a.dport < 8 }
    requires prio { a.prio < 2 }
    ensures refused { MatchResult result (λ _. ask_refusal node.old.state a ≡ None) (λ e.
        e.1 ≡ ask_refusal node.old.state a) }
    ensures number { IfOk result (λ n. n ≡ token.number) }
    ensures sent { OnOk result (node.new ≡ in_state node.old
        (accepted node.old.state port token.number a (client_bytes a.len seed))) }
    ensures handed_back { IfErr result (λ e. e.0 ≡ token) }
    ensures unchanged { OnErr result (node.new ≡ node.old) }
{
    match node.refuse_ask(a) {
        Some(refusal) => Err((token, cause_of(refusal))),
        None => match send_new(alloc, node, port, token, a, seed) {
            Ok(number) => Ok(number),
            Err(token) => Err((token, None)),
        },
    }
}

// A token sends the message of a new buffer, which isn't refused. It comes back only where memory runs out.
fn send_new(
    alloc: Global,
    node: &mut NicNode,
    port: u8,
    token: SendToken,
    a: SendAsk,
    seed: u8,
) -> Result<u16, SendToken>
    requires port { port < 8 }
    requires open { is_some (port_at node.old.state port) ≡ true }
    requires own { token ≡ token_at node.old.host port token.number }
    requires minted { ForSome (port_at node.old.state port) (λ p. token.number < p.sends) }
    requires free { ForSome (port_at node.old.state port) (λ p. place_of_send p token.number ≡ None) }
    requires dest { a.dest < node.old.hosts }
    requires dport { a.dport < 8 }
    requires prio { a.prio < 2 }
    requires accepted { ask_bar node.old a ≡ None }
    ensures number { IfOk result (λ n. n ≡ token.number) }
    ensures sent { OnOk result (node.new ≡ in_state node.old
        (accepted node.old.state port token.number a (client_bytes a.len seed))) }
    ensures handed_back { IfErr result (λ t. t ≡ token) }
    ensures unchanged { OnErr result (node.new ≡ node.old) }
{
    match client_buffer(alloc, a.len, seed) {
        Ok(buffer) => send_buffer(alloc, node, port, token, a, buffer),
        Err(_) => Err(token),
    }
}

// A token sends the message of this buffer, which isn't refused. It comes back only where memory runs out.
fn send_buffer(
    alloc: Global,
    node: &mut NicNode,
    port: u8,
    token: SendToken,
    a: SendAsk,
    buffer: Reg,
) -> Result<u16, SendToken>
    requires port { port < 8 }
    requires open { is_some (port_at node.old.state port) ≡ true }
    requires own { token ≡ token_at node.old.host port token.number }
    requires minted { ForSome (port_at node.old.state port) (λ p. token.number < p.sends) }
    requires free { ForSome (port_at node.old.state port) (λ p. place_of_send p token.number ≡ None) }
    requires dest { a.dest < node.old.hosts }
    requires dport { a.dport < 8 }
    requires prio { a.prio < 2 }
    requires accepted { ask_bar node.old a ≡ None }
    requires whole { length buffer ≡ a.len }
    ensures number { IfOk result (λ n. n ≡ token.number) }
    ensures sent { OnOk result (node.new ≡ in_state node.old
        (accepted node.old.state port token.number a buffer)) }
    ensures handed_back { IfErr result (λ t. t ≡ token) }
    ensures unchanged { OnErr result (node.new ≡ node.old) }
{
    let number = token.number();
    match node.send(alloc, port, token, buffer, a) {
        Ok(()) => Ok(number),
        Err((token, buffer, refusal)) => {
            prove!(matches!(refusal, NodeSend::NoMemory));
            release(buffer);
            Err(token)
        }
    }
}

// A refusal of the host, as the client is told of it; none where memory ran out. A client's buffer is never too short.
fn cause_of(refusal: NodeSend) -> Option<ClientCause>
    requires { refusal ≢ NodeSend.BufferShort }
    ensures { result ≡ send_cause refusal }
{
    match refusal {
        NodeSend::NotOpen => Some(ClientCause::NotOpen),
        NodeSend::TooLong => Some(ClientCause::TooLong),
        NodeSend::NoRoute => Some(ClientCause::NoRoute),
        NodeSend::Spent => Some(ClientCause::Spent),
        NodeSend::BufferShort => unreachable!(),
        NodeSend::NoMemory => None,
    }
}
