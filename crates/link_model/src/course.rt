//! Where a channel's packet goes, whatever the other channels hold.

ghost use Rattle.std.specs.Prelude.{◌≡◌, ◌≢◌, ◌<◌, ◌≤◌, ◌&&◌, not, ℕ, slice_get, drop, true, false, Some, IsSome};
ghost use Rattle.std.specs.Prelude.{IfSome};
ghost use Rattle.std.specs.List.{prefix_len};
ghost use Rattle.net_defs.specs.Network.{has_port, is_port_count, ports_of};
ghost use Rattle.packet_defs.specs.Packet.{front_turn, head, stripped};
ghost use Rattle.packet_defs.specs.RouteByte.{is_route_byte};
ghost use Rattle.world_defs.specs.Switch.{aim, after_aim};
ghost use Rattle.world_defs.specs.History.{fabric_now};
ghost use Rattle.world_defs.specs.Crossed.{life_channels, is_new};
ghost use Rattle.world_defs.specs.Kinds.{is_mapping, is_of_mapping, kind_in};
ghost use Rattle.world_defs.specs.Advance.{course, course_out, course_by_channel};
ghost use Rattle.link_model.specs.Hop.{IsSentOn, IsSentAlong, entered_by, passing};

use crate::Slot;
use crate::hop::Run;
use crossbar::{aim_by, turn};
use fabric_wiring::Wiring;
use myri_packet::Packet;
use net_defs::Vertex;
use packet_defs::is_route_byte;
use world_defs::{Course, Turned, Why};

// The type number of packets of mapping.
const MAPPING: u16 = 5;

/// Over the channel's cable it arrives at a host, or a switch sends it on by its front byte.
#[inline(always)]
pub(crate) fn course(wiring: &Wiring, c: u16, p: &Packet) -> Course
    requires { c < life_channels wiring.now }
    ensures { result ≡ course wiring.now c p.now }
{
    let entry = wiring.entry(c);
    match entry.end.v {
        Vertex::Host(h) => Course::Arrives(h),
        Vertex::Switch(s) => course_out(wiring, s, p, aim_by(entry.ports, entry.end.p, p)),
    }
}

// Where a packet goes that a switch sends so.
fn course_out(wiring: &Wiring, s: u16, packet: &Packet, turned: Turned) -> Course
    requires { (p : ℕ) → turned ≡ Turned.Out p
        → has_port (fabric_now wiring.now) (record { v = Vertex.Switch s; p = p }) ≡ true }
    ensures { result ≡ course_out wiring.now s packet.now turned }
{
    match turned {
        Turned::Out(p) => match wiring.leaving(s, p) {
            Some(next) => course_by_channel(wiring, next, packet),
            None => Course::Drops(Why::NoCable),
        },
        Turned::OutOfRange => Course::Drops(Why::OutOfRange),
        Turned::NotRoute => Course::Drops(Why::NotRoute),
    }
}

// Where a packet goes that would enter a channel: a new cable takes packets of mapping alone.
fn course_by_channel(wiring: &Wiring, next: u16, packet: &Packet) -> Course
    requires { next < life_channels wiring.now }
    ensures { result ≡ course_by_channel wiring.now packet.now (Some next) }
{
    if is_stopped(wiring, next, packet) {
        Course::Drops(Why::NewCable)
    } else {
        Course::Enters(next)
    }
}

// Whether a packet may not enter a channel. Its type is asked for only where the channel's cable is new.
fn is_stopped(wiring: &Wiring, next: u16, packet: &Packet) -> bool
    requires { next < life_channels wiring.now }
    ensures { result ≡ (is_new wiring.now next && not (is_mapping packet.now)) }
{
    wiring.is_new(next) && !is_mapping(packet)
}

// Whether a packet is of mapping, by the two bytes after its route bytes.
fn is_mapping(packet: &Packet) -> bool
    ensures { result ≡ is_mapping packet.now }
{
    is_of_mapping(after_route(packet.head()))
}

// Whether a head without route bytes begins with the type of packets of mapping.
fn is_of_mapping(body: &[u8]) -> bool
    ensures { result ≡ is_of_mapping (kind_in body.now) }
{
    match body {
        [high, low, ..] => u16::from(*high) * 256 + u16::from(*low) == MAPPING,
        _ => false,
    }
}

// A head after its route bytes.
fn after_route(head: &[u8]) -> &[u8]
    ensures { result.now ≡ drop (prefix_len is_route_byte head.now) head.now }
{
    let mut at = 0;
    while at < head.len() && is_route_byte(head[at]) {
        at += 1;
    }
    &head[at..]
}

/// The packet of a channel after the switch ahead, which turns it: it is known to go on into a channel.
pub(crate) fn turned(wiring: &Wiring, c: u16, slot: Slot) -> Slot
    requires there { c < life_channels wiring.now }
    requires goes { IsSentOn wiring.now c slot.wire }
    ensures { result ≡ record slot { wire = stripped slot.wire } }
{
    let (mut packet, marked, born) = slot.into_parts();
    turn_on(wiring, c, &mut packet);
    Slot::from_parts(packet, marked, born)
}

// The switch ahead of a channel turns its packet, which is known to go on into a channel.
fn turn_on(wiring: &Wiring, c: u16, packet: &mut Packet)
    requires there { c < life_channels wiring.now }
    requires goes { IsSentOn wiring.now c packet.old }
    ensures { packet.new ≡ stripped packet.old }
{
    let entry = wiring.entry(c);
    turn_at(entry.ports, entry.end.p, packet);
}

// A switch turns a packet, by the call for its number of ports.
fn turn_at(ports: u8, entry: u8, packet: &mut Packet) -> Turned
    requires counted { is_port_count ports ≡ true }
    requires entered { entry < ports }
    ensures aim { result ≡ aim ports entry packet.old }
    ensures packet { packet.new ≡ after_aim result packet.old }
{
    match ports {
        4 => turn::<4>(entry, packet),
        8 => turn::<8>(entry, packet),
        _ => turn::<16>(entry, packet),
    }
}

/// The channel that the packet of a channel goes into, whatever the channels hold, if it goes into one. Whether that is
/// new need not be asked where no cable is.
pub(crate) fn next_channel<const ASKS: bool>(
    wiring: &Wiring,
    c: u16,
    packet: &Packet,
) -> Option<u16>
    requires there { c < life_channels wiring.now }
    requires old { ASKS ≡ false → (d : ℕ) → is_new wiring.now d ≡ false }
    ensures { result ≡ entered_by (course wiring.now c packet.now) }
{
    let ahead = channel_ahead(wiring, c, packet);
    if ASKS {
        passing(wiring, packet, ahead)
    } else {
        ahead
    }
}

// The channel that the packet of a channel would go into if no cable were new: by one look into the table of hops,
// which asks for no number of ports.
fn channel_ahead(wiring: &Wiring, c: u16, packet: &Packet) -> Option<u16>
    requires { c < life_channels wiring.now }
    ensures passing { passing wiring.now packet.now result ≡ entered_by (course wiring.now c packet.now) }
    ensures there { IfSome result (λ d. d < life_channels wiring.now) }
{
    match front_byte(packet) {
        Some(byte) => wiring.next(c, byte),
        None => None,
    }
}

// The channel that a packet may enter of the one that its turn leads to.
fn passing(wiring: &Wiring, packet: &Packet, next: Option<u16>) -> Option<u16>
    requires { IfSome next (λ c. c < life_channels wiring.now) }
    ensures { result ≡ passing wiring.now packet.now next }
{
    match next {
        Some(c) => {
            if is_stopped(wiring, c, packet) {
                None
            } else {
                Some(c)
            }
        }
        None => None,
    }
}

/// A packet that is known to have a turn in front, without it.
pub(crate) fn without_turn(slot: Slot) -> Slot
    requires { IsSome (front_turn slot.wire) }
    ensures { result ≡ record slot { wire = stripped slot.wire } }
{
    let (mut packet, marked, born) = slot.into_parts();
    packet.strip_turn();
    Slot::from_parts(packet, marked, born)
}

// The first byte of a packet's head.
fn front_byte(packet: &Packet) -> Option<u8>
    ensures { result ≡ slice_get (head packet.now) 0 }
{
    packet.head().first().copied()
}

/// The packet of a channel goes on, whatever the channels hold, until it leaves them: how far. Each switch strips the
/// turn that it takes. Whether a cable may be new is asked once.
pub(crate) fn follow(wiring: &Wiring, c: u16, packet: &mut Packet) -> Run
    requires { c < life_channels wiring.now }
    ensures along { IsSentAlong wiring.now c packet.old result.hops result.at packet.new }
    ensures there { result.at < life_channels wiring.now }
    ensures last { (next : ℕ) → course wiring.now result.at packet.new ≢ Course.Enters next }
    ensures few { result.hops ≤ 1107 }
{
    if wiring.has_changed() {
        follow_by::<true>(wiring, c, packet)
    } else {
        follow_by::<false>(wiring, c, packet)
    }
}

// The same, with the question for a new cable at each hop or at none.
fn follow_by<const ASKS: bool>(wiring: &Wiring, c: u16, packet: &mut Packet) -> Run
    requires there { c < life_channels wiring.now }
    requires old { ASKS ≡ false → (d : ℕ) → is_new wiring.now d ≡ false }
    ensures along { IsSentAlong wiring.now c packet.old result.hops result.at packet.new }
    ensures there { result.at < life_channels wiring.now }
    ensures last { (next : ℕ) → course wiring.now result.at packet.new ≢ Course.Enters next }
    ensures few { result.hops ≤ 1107 }
{
    let _few = packet.size();
    let mut at = c;
    let mut hops = 0;
    while let Some(next) = next_channel::<ASKS>(wiring, at, packet) {
        packet.strip_turn();
        at = next;
        hops += 1;
    }
    Run { hops, at }
}
