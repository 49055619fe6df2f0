//! A packet alone in the links goes the way of its walk.

ghost use Rattle.std.specs.Prelude.{◌≡◌, ◌<◌, ◌≤◌, ◌+◌, length, All, IfOk};
ghost use Rattle.net_defs.specs.Turn.{IsTurn};
ghost use Rattle.net_defs.specs.Route.{place, place_at_vertex, IsPlaceOf};
ghost use Rattle.world_defs.specs.History.{fabric_now};
ghost use Rattle.world_defs.specs.Links.{bare_links};
ghost use Rattle.world_defs.specs.Lone.{lone_place};
ghost use Rattle.link_model.specs.Alone.{wire_in, left_at, IsAlone};

use crate::links::Links;
use myri_packet::{Packet, encode, has_route};
use net_defs::{End, Place, Vertex};
use packet_defs::Kind;
use std::alloc::{AllocError, Global};
use world_defs::{Moved, Why};

/// Where a walk from a host ends: a packet without payload takes its turns, alone in these links. They are idle
/// before and after.
pub fn walk_alone(
    alloc: Global,
    links: &mut Links,
    host: u16,
    turns: &[i8],
) -> Result<Place, AllocError>
    requires few { length turns.now ≤ 64 }
    requires turns { All IsTurn turns.now }
    requires idle { links.old ≡ bare_links links.old.cables }
    ensures place { IfOk result (λ end. end ≡ place (fabric_now links.old.cables) host turns.now) }
    ensures there { IfOk result (λ end. IsPlaceOf (fabric_now links.old.cables) end) }
    ensures idle { links.new ≡ links.old }
{
    let port = End {
        v: Vertex::Host(host),
        p: 0,
    };
    let Some(channel) = links.channel_from(port) else {
        return Ok(Place::Nothing);
    };
    let packet = encode(alloc, turns, Kind::Mapping, b"")?;
    let _ = links.put(channel, packet);
    Ok(run_out(links, channel, turns.len() + 1))
}

// Where the packet of a channel ends, alone in the links, within so many steps. A packet takes no more than one for
// each turn, and one.
fn run_out(links: &mut Links, at: u16, steps: usize) -> Place
    requires few { steps ≤ 65 }
    requires there { at < length links.old.channels }
    requires alone { IsAlone links.old at }
    ensures place { result ≡ lone_place steps links.old.cables at (wire_in links.old at) }
    ensures idle { links.new ≡ bare_links links.old.cables }
{
    if steps == 0 {
        links.reset(at);
        return Place::Nothing;
    }
    match links.advance(at) {
        Moved::To(next) => run_out(links, next, steps - 1),
        moved => place_of(links, at, moved),
    }
}

// Where a packet ended that a step of its channel took out of the links.
fn place_of(links: &Links, at: u16, moved: Moved<Packet>) -> Place
    requires { at < length links.now.channels }
    ensures { result ≡ left_at links.now.cables at moved }
{
    match moved {
        Moved::AtHost(h, packet) => {
            if has_route(packet.head()) {
                Place::Nothing
            } else {
                Place::Host(h)
            }
        }
        Moved::Dropped(Why::NotRoute) => place_at(links.ends(at).1),
        _ => Place::Nothing,
    }
}

// The place of an end that was entered.
fn place_at(end: End) -> Place
    ensures { result ≡ place_at_vertex end.v end.p }
{
    match end.v {
        Vertex::Host(h) => Place::Host(h),
        Vertex::Switch(s) => Place::Switch(s, end.p),
    }
}
