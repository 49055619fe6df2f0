//! A body of messages came.

ghost use Rattle.std.specs.Prelude.{◌≡◌, ◌<◌, ◌&&◌, nat_eq, length, take, true, IfOk, OnErr};
ghost use Rattle.gm_defs.specs.Body.{is_head, decode};
ghost use Rattle.world_defs.specs.Node.{NodeState};
ghost use Rattle.world_defs.specs.Hearing.{port_takes, heard_if, is_host, took_word, frame_took, frame_heard};
ghost use Rattle.world_defs.specs.Hearing.{ack_heard, messages_read, hear_body};
ghost use Rattle.host_ports.specs.Held.{open_at};
ghost use Rattle.nic_node.specs.Messages.{with_messages, delivered_in, finished_in};

use gm_conn::{Lane, Lanes};
use gm_defs::Took;
use gm_frame::{Ack, FrameHead, GmBody, decode, part_of};
use host_ports::Ports;
use packet_defs::HostDrop;
use std::alloc::{AllocError, Global};
use world_defs::{Arrival, Heard};

/// The body of a packet came to the host that has these lanes and ports. Whatever else the host has, what is
/// made of the body, and what becomes of lanes and ports, is as the world's host makes it. Running out of memory
/// changes nothing.
pub(crate) fn hear(
    alloc: Global,
    host: u16,
    lanes: &mut Lanes,
    ports: &mut Ports,
    body: &[u8],
) -> Result<Arrival, AllocError>
    requires { host ≡ lanes.old.host }
    ensures heard { IfOk result (λ arrival. (n : NodeState)
        → hear_body host (lanes.old.hosts) (with_messages n lanes.old ports.old)
        (messages_read body.now (decode body.now))
        ≡ (arrival, with_messages n lanes.new ports.new)) }
    ensures lanes_host { lanes.new.host ≡ lanes.old.host }
    ensures hosts { lanes.new.hosts ≡ lanes.old.hosts }
    ensures ports_host { ports.new.host ≡ ports.old.host }
    ensures lanes { OnErr result (lanes.new ≡ lanes.old) }
    ensures ports { OnErr result (ports.new ≡ ports.old) }
{
    match decode(body) {
        Ok(GmBody::Frame(h)) => hear_frame(alloc, host, lanes, ports, &h, part_of(body)),
        Ok(GmBody::Ack(a)) => Ok(hear_ack(host, lanes, ports, &a)),
        Err(_) => Ok(Arrival::Dropped(HostDrop::Malformed)),
    }
}

// A frame came, its bytes after its head. It must name this host, and a host that sent it.
fn hear_frame(
    alloc: Global,
    host: u16,
    lanes: &mut Lanes,
    ports: &mut Ports,
    h: &FrameHead,
    part: &[u8],
) -> Result<Arrival, AllocError>
    requires head { is_head h.now ≡ true }
    requires part { length part.now ≡ h.now.len }
    ensures ok { IfOk result (λ arrival. (n : NodeState)
        → heard_if (nat_eq h.now.dst host && is_host (lanes.old.hosts) h.now.src)
        (with_messages n lanes.old ports.old) (frame_heard (with_messages n lanes.old ports.old) h.now part.now
        (frame_took (with_messages n lanes.old ports.old) h.now))
        ≡ (arrival, with_messages n lanes.new ports.new)) }
    ensures lanes_host { lanes.new.host ≡ lanes.old.host }
    ensures hosts { lanes.new.hosts ≡ lanes.old.hosts }
    ensures ports_host { ports.new.host ≡ ports.old.host }
    ensures lanes { OnErr result (lanes.new ≡ lanes.old) }
    ensures ports { OnErr result (ports.new ≡ ports.old) }
{
    if is_mine(host, lanes, h.dst, h.src) {
        match take(alloc, lanes, ports, h, part) {
            Ok(heard) => Ok(Arrival::Heard(heard)),
            Err(error) => Err(error),
        }
    } else {
        Ok(Arrival::NotMine)
    }
}

// An acknowledgement came. It must name this host, and a host that sent it.
fn hear_ack(host: u16, lanes: &mut Lanes, ports: &mut Ports, a: &Ack) -> Arrival
    ensures lanes_host { lanes.new.host ≡ lanes.old.host }
    ensures hosts { lanes.new.hosts ≡ lanes.old.hosts }
    ensures ports_host { ports.new.host ≡ ports.old.host }
    ensures heard { (n : NodeState) → heard_if (nat_eq a.now.dst host && is_host (lanes.old.hosts) a.now.src)
        (with_messages n lanes.old ports.old) (Heard.Ack, ack_heard (with_messages n lanes.old ports.old) a.now)
        ≡ (result, with_messages n lanes.new ports.new) }
{
    if is_mine(host, lanes, a.dst, a.src) {
        acknowledge(lanes, ports, a);
        Arrival::Heard(Heard::Ack)
    } else {
        Arrival::NotMine
    }
}

// Whether these are this host and a host that sent.
fn is_mine(host: u16, lanes: &Lanes, dst: u16, src: u16) -> bool
    ensures { result ≡ (nat_eq dst host && is_host (lanes.now.hosts) src) }
{
    dst == host && src < lanes.hosts()
}

// A frame for a lane of this host came.
fn take(
    alloc: Global,
    lanes: &mut Lanes,
    ports: &mut Ports,
    h: &FrameHead,
    part: &[u8],
) -> Result<Heard, AllocError>
    requires within { h.now.src < lanes.old.hosts }
    requires head { is_head h.now ≡ true }
    requires part { length part.now ≡ h.now.len }
    ensures ok { IfOk result (λ heard. (n : NodeState)
        → frame_heard (with_messages n lanes.old ports.old) h.now part.now
        (frame_took (with_messages n lanes.old ports.old) h.now) ≡ (heard, with_messages n lanes.new ports.new)) }
    ensures lanes_host { lanes.new.host ≡ lanes.old.host }
    ensures hosts { lanes.new.hosts ≡ lanes.old.hosts }
    ensures ports_host { ports.new.host ≡ ports.old.host }
    ensures lanes { OnErr result (lanes.new ≡ lanes.old) }
    ensures ports { OnErr result (ports.new ≡ ports.old) }
{
    let fits = ports.can_take(h);
    let took = lanes.on_frame(alloc, h, part, fits)?;
    deliver(ports, took, h, part);
    Ok(word_of(took))
}

// An acknowledgement for a lane of this host came.
fn acknowledge(lanes: &mut Lanes, ports: &mut Ports, a: &Ack)
    requires { a.now.src < lanes.old.hosts }
    ensures lanes_host { lanes.new.host ≡ lanes.old.host }
    ensures hosts { lanes.new.hosts ≡ lanes.old.hosts }
    ensures ports_host { ports.new.host ≡ ports.old.host }
    ensures heard { (n : NodeState) → ack_heard (with_messages n lanes.old ports.old) a.now
        ≡ with_messages n lanes.new ports.new }
{
    let lane = lanes.lane(a.src, a.prio);
    let finished = lane.finished_by(a.next);
    finish(lane, ports, finished);
    lanes.on_ack(a);
}

// A fragment that was taken goes to its port.
fn deliver(ports: &mut Ports, took: Took, h: &FrameHead, part: &[u8])
    requires whole { took ≡ Took.Whole → port_takes (open_at ports.old h.now.dport) h.now ≡ true }
    requires part_taken { took ≡ Took.Part → port_takes (open_at ports.old h.now.dport) h.now ≡ true }
    requires head { is_head h.now ≡ true }
    requires part { length part.now ≡ h.now.len }
    ensures delivered { ports.new ≡ delivered_in ports.old h.now part.now took }
    ensures host { ports.new.host ≡ ports.old.host }
{
    match took {
        Took::Whole => ports.deliver(h, part),
        Took::Part => ports.deliver(h, part),
        Took::NoToken => {}
        Took::NotNext => {}
    }
}

// The first so many sends of a lane that wait longest are finished at their ports.
fn finish(lane: &Lane, ports: &mut Ports, count: usize)
    ensures finished { ports.new ≡ finished_in ports.old (take count lane.now.state.pending) }
    ensures host { ports.new.host ≡ ports.old.host }
{
    for place in 0..count {
        if let Some(ticket) = lane.pending(place) {
            ports.finish(ticket.port(), ticket.token());
        }
    }
}

// What was heard of a frame.
fn word_of(took: Took) -> Heard
    ensures { result ≡ took_word took }
{
    match took {
        Took::Whole => Heard::Message,
        Took::Part => Heard::Fragment,
        Took::NoToken => Heard::NoToken,
        Took::NotNext => Heard::NotNext,
    }
}
