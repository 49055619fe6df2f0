//! The heads of probes' packets, each written once, in an array.

ghost use Rattle.std.specs.Prelude.{◌≡◌, ◌<◌, ◌≤◌, ◌+◌, ◌*◌, ◌++◌, ◌∷◌, length, map, take, pos, All};
ghost use Rattle.net_defs.specs.Turn.{IsTurn};
ghost use Rattle.packet_defs.specs.RouteByte.{route_byte};
ghost use Rattle.packet_defs.specs.Packet.{head_of};
ghost use Rattle.world_defs.specs.Mapping.{MappingBody, mapping_bytes};
ghost use Rattle.world_defs.specs.Node.{way_back};

use crate::route::opposite_at;
use myri_packet::{Kind, type_bytes};
use packet_defs::{route_byte, write_turns};
use probe::{host_probe_front, loop_bytes};

/// The most bytes of a probe's head: 64 route bytes, the type, and a body.
pub(crate) const MAX_HEAD: usize = 142;

/// The head of a host probe, and zeros after it.
pub(crate) fn host_head(turns: &[i8], number: u64, mapper: u16) -> [u8; MAX_HEAD]
    requires few { length turns.now ≤ 64 }
    requires turns { All IsTurn turns.now }
    ensures { take (2 * length turns.now + 14) result
        ≡ head_of turns.now Kind.Mapping (mapping_bytes (MappingBody.HostProbe number mapper (way_back turns.now))) }
{
    let count = turns.len();
    let mut head = [0; MAX_HEAD];
    put_route(&mut head, 0, turns);
    put(&mut head, count, &type_bytes(Kind::Mapping));
    put(
        &mut head,
        count + 2,
        &host_probe_front(number, mapper, count as u8),
    );
    put_way_back(&mut head, count + 14, turns);
    head
}

/// The head of a probe that returns, and zeros after it. Its route is the turns, the turn 0 that leads back into the
/// last cable, and the way back.
pub(crate) fn loop_head(turns: &[i8], number: u64, mapper: u16) -> [u8; MAX_HEAD]
    requires few { length turns.now ≤ 31 }
    requires turns { All IsTurn turns.now }
    ensures { take (2 * length turns.now + 14) result ≡ head_of (turns.now ++ pos 0 ∷ way_back turns.now) Kind.Mapping
        (mapping_bytes (MappingBody.Loopback number mapper)) }
{
    let count = turns.len();
    let mut head = [0; MAX_HEAD];
    put_route(&mut head, 0, turns);
    put(&mut head, count, &[route_byte(0)]);
    put_way_back(&mut head, count + 1, turns);
    put(&mut head, 2 * count + 1, &type_bytes(Kind::Mapping));
    put(&mut head, 2 * count + 3, &loop_bytes(number, mapper));
    head
}

// Writes bytes after the first so many.
fn put(head: &mut [u8], at: usize, bytes: &[u8])
    requires { at + length bytes.now ≤ length head.old }
    ensures front { take (at + length bytes.now) head.new ≡ take at head.old ++ bytes.now }
    ensures size { length head.new ≡ length head.old }
{
    head[at..at + bytes.len()].copy_from_slice(bytes);
}

// Writes the route bytes of turns after the first so many bytes.
fn put_route(head: &mut [u8], at: usize, turns: &[i8])
    requires { at + length turns.now ≤ length head.old }
    ensures front { take (at + length turns.now) head.new ≡ take at head.old ++ map route_byte turns.now }
    ensures size { length head.new ≡ length head.old }
{
    write_turns(&mut head[at..at + turns.len()], turns);
}

// Writes the route bytes of a way back after the first so many bytes.
fn put_way_back(head: &mut [u8], at: usize, turns: &[i8])
    requires there { at + length turns.now ≤ length head.old }
    requires turns { All IsTurn turns.now }
    ensures front { take (at + length turns.now) head.new ≡ take at head.old ++ map route_byte (way_back turns.now) }
    ensures size { length head.new ≡ length head.old }
{
    write_way_back(&mut head[at..at + turns.len()], turns);
}

// Writes the route bytes of the way back of as many turns.
fn write_way_back(bytes: &mut [u8], turns: &[i8])
    requires size { length bytes.old ≡ length turns.now }
    requires turns { All IsTurn turns.now }
    ensures { bytes.new ≡ map route_byte (way_back turns.now) }
{
    for place in 0..turns.len() {
        bytes[place] = route_byte(opposite_at(turns, turns.len() - 1 - place));
    }
}
