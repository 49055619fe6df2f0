//! A message is accepted.

ghost use Rattle.std.specs.Prelude.{◌≡◌, ◌⊎◌, ◌<◌, length, None, Some, IfErr, OnOk, OnErr, MatchResult};
ghost use Rattle.std.specs.Option.{ForSome};
ghost use Rattle.net_defs.specs.Refusal.{Refuses};
ghost use Rattle.gm_defs.specs.Token.{place_of_send};
ghost use Rattle.gm_defs.specs.Port.{sent_with};
ghost use Rattle.gm_tokens.specs.Token.{token_at};
ghost use Rattle.world_defs.specs.Node.{lane_of};
ghost use Rattle.host_ports.specs.Held.{open_at, changed};
ghost use Rattle.host_ports.specs.Refusal.{send_bar};
ghost use Rattle.gm_conn.specs.Lanes.{lane_in};
ghost use Rattle.nic_node.specs.Accepting.{accepted_in, message_bar, node_bar, port_word};

use crate::refusal::NodeSend;
use gm_conn::{Envelope, Lanes, OfferRefusal};
use gm_tokens::{SendToken, is_too_long};
use host_ports::{PortSend, Ports, SendAsk};
use reg_mem::Reg;
use std::alloc::Global;

/// Accepts a message of a port for a peer; `route` says whether a route leads there. The port has token and buffer
/// until the message is acknowledged. A refusal hands both back and changes nothing: NotOpen, TooLong, BufferShort,
/// NoRoute, Spent, in this order; only then may memory run out.
pub(crate) fn send(
    alloc: Global,
    lanes: &mut Lanes,
    ports: &mut Ports,
    route: bool,
    port: u8,
    t: SendToken,
    mut b: Reg,
    a: SendAsk,
) -> Result<(), (SendToken, Reg, NodeSend)>
    requires port { port < 8 }
    requires dest { a.dest < lanes.old.hosts }
    requires own { t ≡ token_at ports.old.host port t.number }
    requires minted { ForSome (open_at ports.old port) (λ p. t.number < p.sends) }
    requires free { ForSome (open_at ports.old port) (λ p. place_of_send p t.number ≡ None) }
    requires dport { a.dport < 8 }
    requires prio { a.prio < 2 }
    ensures refused { MatchResult result (λ _. node_bar lanes.old ports.old route port a b ≡ None) (λ e.
        (node_bar lanes.old ports.old route port a b ≡ Some e.2)
        ⊎ ((node_bar lanes.old ports.old route port a b ≡ None) × (e.2 ≡ NodeSend.NoMemory))) }
    ensures handed_back { IfErr result (λ e. (e.0 ≡ t) × (e.1 ≡ b)) }
    ensures accepted { OnOk result (lanes.new ≡ accepted_in lanes.old port t.number a b) }
    ensures sent { OnOk result (ports.new ≡ changed ports.old port (λ s. sent_with s t.number b)) }
    ensures lanes { OnErr result (lanes.new ≡ lanes.old) }
    ensures ports { OnErr result (ports.new ≡ ports.old) }
{
    match accept(alloc, lanes, ports, route, port, t.number(), a, &mut b) {
        Ok(()) => {
            ports.send(port, t, b, a);
            Ok(())
        }
        Err(refusal) => Err((t, b, refusal)),
    }
}

// Accepts the message of a buffer for a peer, where nothing refuses it. The buffer keeps its bytes.
fn accept(
    alloc: Global,
    lanes: &mut Lanes,
    ports: &Ports,
    route: bool,
    port: u8,
    token: u16,
    a: SendAsk,
    b: &mut Reg,
) -> Result<(), NodeSend>
    requires port { port < 8 }
    requires dest { a.dest < lanes.old.hosts }
    requires dport { a.dport < 8 }
    requires prio { a.prio < 2 }
    ensures refused { Refuses (node_bar lanes.old ports.now route port a b.old) NodeSend.NoMemory result }
    ensures able { OnOk result (send_bar (open_at ports.now port) a.len b.old ≡ None) }
    ensures accepted { OnOk result (lanes.new ≡ accepted_in lanes.old port token a b.old) }
    ensures unchanged { OnErr result (lanes.new ≡ lanes.old) }
    ensures buffer { b.new ≡ b.old }
{
    if let Some(refusal) = refuse(lanes, ports, route, port, a, b.bytes()) {
        return Err(refusal);
    }
    let envelope = Envelope {
        sport: port,
        dport: a.dport,
        prio: a.prio,
    };
    match lanes.accept(alloc, a.dest, envelope, b, a.len, token) {
        Ok(()) => Ok(()),
        Err(refusal) => {
            prove!(matches!(refusal, OfferRefusal::NoMemory));
            Err(NodeSend::NoMemory)
        }
    }
}

// Why the message of a buffer is refused: for its port or its buffer, or else whatever these are.
fn refuse(
    lanes: &Lanes,
    ports: &Ports,
    route: bool,
    port: u8,
    a: SendAsk,
    buffer: &[u8],
) -> Option<NodeSend>
    requires port { port < 8 }
    requires dest { a.dest < lanes.now.hosts }
    ensures { result ≡ node_bar lanes.now ports.now route port a buffer.now }
{
    match ports.refuse_send(port, a.len, buffer) {
        Some(refusal) => Some(port_word(refusal)),
        None => refuse_ask(lanes, route, a),
    }
}

/// Why a message is refused whatever its port and its buffer are: TooLong, NoRoute, Spent, in this order. `route` says
/// whether a route leads to its receiver.
pub(crate) fn refuse_ask(lanes: &Lanes, route: bool, a: SendAsk) -> Option<NodeSend>
    requires { a.dest < lanes.now.hosts }
    ensures { result ≡ message_bar (lane_in lanes.now (lane_of a.dest a.prio)) route a.len }
{
    if is_too_long(a.len) {
        Some(NodeSend::TooLong)
    } else if !route {
        Some(NodeSend::NoRoute)
    } else if lanes.is_spent(a.dest, a.prio, a.len) {
        Some(NodeSend::Spent)
    } else {
        None
    }
}

fn port_word(refusal: PortSend) -> NodeSend
    ensures { result ≡ port_word refusal }
{
    match refusal {
        PortSend::NotOpen => NodeSend::NotOpen,
        PortSend::TooLong => NodeSend::TooLong,
        PortSend::BufferShort => NodeSend::BufferShort,
    }
}
