//! Routes along which ranks rise, by one look a channel.

ghost use Rattle.std.specs.Prelude.{◌≡◌, ◌<◌, ◌+ℤ◌, ◌-ℤ◌, pos, List, true, Some, None, All, IfSome};
ghost use Rattle.net_defs.specs.Turn.{IsTurn};
ghost use Rattle.map_defs.specs.declared.rank.RankEntry.{RankEntry};
ghost use Rattle.map_defs.specs.NetMap.{NetMap};
ghost use Rattle.map_defs.specs.Routing.{channels_on, led_to, vertex_of_host};
ghost use Rattle.rank_cert.specs.Checking.{fault_along, route_fault};
ghost use Rattle.rank_cert.specs.Crossing.{AreCrossings, IsCrossing, far_of};

use crate::crossings::{Crossing, MAX_PORT, PORTS, crossing_at};
use fabric_map::FabricMap;
use port_graph::Route;

// The place of port 0 among the ports of a vertex.
const MIDDLE: usize = 15;

/// Whether the channels of a table show that a route has no fault.
pub(crate) fn is_faultless(m: &FabricMap, table: &[Option<Crossing>], r: &Route) -> bool
    ensures { (ks : List RankEntry) → AreCrossings m.now ks table.now → result ≡ true
        → route_fault m.now ks r.now ≡ None }
{
    match m.vertex_of_host(r.from) {
        None => false,
        Some(v) => match crossed_last(table, v, r.walk.turns()) {
            None => false,
            Some(last) => last.p == 0 && is_vertex_of(m, r.to, last.v),
        },
    }
}

// Whether a host has this vertex.
fn is_vertex_of(m: &FabricMap, h: u16, v: u32) -> bool
    ensures { result ≡ true → vertex_of_host m.now h ≡ Some v }
{
    match m.vertex_of_host(h) {
        None => false,
        Some(w) => w == v,
    }
}

// The channel that turns from a vertex cross last, where ranks rise from each to the next.
fn crossed_last(table: &[Option<Crossing>], v: u32, turns: &[i8]) -> Option<Crossing>
    requires { All IsTurn turns.now }
    ensures { (m : NetMap) (ks : List RankEntry) → AreCrossings m ks table.now → IfSome result (λ c.
        (fault_along ks None (channels_on m (Some (record { v = v; p = pos 0 })) turns.now) ≡ None)
        × (led_to m (Some (record { v = v; p = pos 0 })) turns.now ≡ Some (far_of c))) }
{
    match crossing_at(table, v, MIDDLE) {
        None => None,
        Some(first) => crossed_from(table, v, first, turns),
    }
}

// The same, where the first channel is known.
fn crossed_from(
    table: &[Option<Crossing>],
    v: u32,
    first: Crossing,
    turns: &[i8],
) -> Option<Crossing>
    requires { All IsTurn turns.now }
    ensures { (m : NetMap) (ks : List RankEntry) → AreCrossings m ks table.now
        → IsCrossing m ks record { v = v; p = pos 0 } first → IfSome result (λ c.
        (fault_along ks None (channels_on m (Some (record { v = v; p = pos 0 })) turns.now) ≡ None)
        × (led_to m (Some (record { v = v; p = pos 0 })) turns.now ≡ Some (far_of c))) }
{
    let _ = v;
    let mut last = first;
    for turn in turns {
        match risen(table, last, *turn) {
            Some(next) => last = next,
            None => return None,
        }
    }
    Some(last)
}

// The next channel by a turn, where its rank is greater.
fn risen(table: &[Option<Crossing>], last: Crossing, turn: i8) -> Option<Crossing>
    requires { IsTurn turn }
    ensures { (m : NetMap) (ks : List RankEntry) → AreCrossings m ks table.now → IfSome result (λ c.
        (last.onward ≡ true) × IsCrossing m ks record { v = last.v; p = last.p +ℤ turn } c × (last.rank < c.rank)) }
{
    if !last.onward {
        return None;
    }
    match turned(last, turn) {
        None => None,
        Some(k) => above(last, crossing_at(table, last.v, k)),
    }
}

// A channel, if its rank is greater than that of another.
fn above(last: Crossing, next: Option<Crossing>) -> Option<Crossing>
    ensures { IfSome result (λ c. (next ≡ Some c) × (last.rank < c.rank)) }
{
    match next {
        None => None,
        Some(next) => {
            if last.rank < next.rank {
                Some(next)
            } else {
                None
            }
        }
    }
}

// The place of the port that a turn leaves by, from where a channel leads.
fn turned(last: Crossing, turn: i8) -> Option<usize>
    ensures there { IfSome result (λ k. k < 31) }
    ensures port { IfSome result (λ k. pos k -ℤ pos 15 ≡ last.p +ℤ turn) }
{
    let place = i16::from(last.p) + i16::from(turn) + i16::from(MAX_PORT);
    if 0 <= place && place < PORTS as i16 {
        Some(place as usize)
    } else {
        None
    }
}
