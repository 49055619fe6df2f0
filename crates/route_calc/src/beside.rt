//! The ways to a host at the switch of another: what is neither of them is as far from the one as from the other.
//!
//! ```text
//!      a   b         From x the ways to a and to b are one up to s, and each has a channel more.
//!       \ /
//!   x .. s
//! ```

ghost use Rattle.std.specs.Prelude.{◌≡◌, ◌<◌, length, false, true, Some, IfOk, IfSome, slice_set};
ghost use Rattle.std.specs.List.{list_any};
ghost use Rattle.map_defs.specs.Orientation.{order_of};
ghost use Rattle.map_defs.specs.Routing.{vertex_of_host};
ghost use Rattle.updown.specs.Oriented.{orientation_of};
ghost use Rattle.route_calc.specs.Beside.{AreFirstsBeside, are_hung, far_beside, leads_down_to};
ghost use Rattle.route_calc.specs.Exits.{all_exits, exits_at};
ghost use Rattle.route_calc.specs.Far.{place_in};
ghost use Rattle.route_calc.specs.Hosts.{AreWaysOf};

use crate::distances::{FAR, is_switch, place_of};
use crate::entered::Exit;
use crate::exits::{Exits, entered_by};
use crate::firsts::first_at;
use crate::ways::Ways;
use fabric_map::FabricMap;
use std::alloc::{AllocError, Global};
use updown::Orientation;

/// The ways to a host and its vertex, by those to another host that hangs at one switch with it, each by a channel
/// down. None where they don't.
pub(crate) fn ways_beside(
    alloc: Global,
    m: &FabricMap,
    o: &Orientation,
    exits: &[Exits],
    from: &Ways,
    host: (u16, u32),
) -> Result<Option<Ways>, AllocError>
    requires oriented { o.now ≡ orientation_of m.now }
    requires exits { exits.now ≡ all_exits m.now (order_of m.now) }
    requires from { AreWaysOf m.now (order_of m.now) from.now }
    requires host { vertex_of_host m.now host.0 ≡ Some host.1 }
    ensures ways { IfOk result (λ w. IfSome w (AreWaysOf m.now (order_of m.now))) }
    ensures host { IfOk result (λ w. IfSome w (λ w. w.host ≡ host.0)) }
{
    match shared_switch(m, exits, from, host.1) {
        None => Ok(None),
        Some(s) => {
            let way = moved(alloc, m, o, exits, from, s, host)?;
            Ok(Some(way))
        }
    }
}

// The ways to a host, by those to another at its switch.
fn moved(
    alloc: Global,
    m: &FabricMap,
    o: &Orientation,
    exits: &[Exits],
    from: &Ways,
    s: u32,
    host: (u16, u32),
) -> Result<Ways, AllocError>
    requires oriented { o.now ≡ orientation_of m.now }
    requires exits { exits.now ≡ all_exits m.now (order_of m.now) }
    requires from { AreWaysOf m.now (order_of m.now) from.now }
    requires host { vertex_of_host m.now host.0 ≡ Some host.1 }
    requires hung { are_hung m.now s from.now.vertex host.1 (exits_at exits.now s) ≡ true }
    ensures ways { IfOk result (λ w. AreWaysOf m.now (order_of m.now) w) }
    ensures host { IfOk result (λ w. w.host ≡ host.0) }
{
    let _ = m.vertices();
    let far = far_beside(alloc, from.far(), from.vertex(), host.1)?;
    let firsts = firsts_beside(alloc, exits, &far, from.firsts(), s)?;
    let start = entered_by(m, o, host.1, 0);
    Ok(Ways::of(host, start, far, firsts))
}

// The switch at which a host hangs with another, if it does.
fn shared_switch(m: &FabricMap, exits: &[Exits], from: &Ways, vertex: u32) -> Option<u32>
    ensures { IfSome result (λ s. are_hung m.now s from.now.vertex vertex (exits_at exits.now s) ≡ true) }
{
    match from.start() {
        None => None,
        Some(start) => {
            if hang_at(m, exits, start.v, from.vertex(), vertex) {
                Some(start.v)
            } else {
                None
            }
        }
    }
}

// Whether two vertices hang at a switch, each by a channel down.
fn hang_at(m: &FabricMap, exits: &[Exits], s: u32, a: u32, b: u32) -> bool
    ensures { result ≡ true → are_hung m.now s a b (exits_at exits.now s) ≡ true }
{
    let place = s as usize;
    if place < exits.len() {
        are_hung(m, s, a, b, exits[place].list())
    } else {
        false
    }
}

// The same, where the ports of the switch are known.
fn are_hung(m: &FabricMap, s: u32, a: u32, b: u32, exits: &[Exit]) -> bool
    ensures { result ≡ are_hung m.now s a b exits.now }
{
    a != b && (is_switch(m, s) && (lead_down_to(exits, a) && lead_down_to(exits, b)))
}

// Whether one of these ports leads down to a vertex.
fn lead_down_to(exits: &[Exit], v: u32) -> bool
    ensures { result ≡ list_any (leads_down_to v) exits.now }
{
    exits.iter().any(|exit| leads_down_to(*exit, v))
}

// Whether a port leads down to a vertex.
fn leads_down_to(exit: Exit, v: u32) -> bool
    ensures { result ≡ leads_down_to v exit }
{
    exit.next.down && exit.next.v == v
}

// The distances to a vertex, by those to another.
fn far_beside(alloc: Global, far: &[u8], a: u32, b: u32) -> Result<Vec<u8>, AllocError>
    requires first { place_in a true < length far.now }
    requires second { place_in b true < length far.now }
    ensures { IfOk result (λ l. l.items ≡ far_beside far.now a b) }
{
    let mut near = Vec::from_slice(alloc, far)?;
    near[place_of(a, false)] = FAR;
    near[place_of(a, true)] = FAR;
    near[place_of(b, false)] = 0;
    near[place_of(b, true)] = 0;
    Ok(near)
}

// The first ports for new distances: those of the switch are looked for, and the others stay.
fn firsts_beside(
    alloc: Global,
    exits: &[Exits],
    far: &[u8],
    firsts: &[u8],
    s: u32,
) -> Result<Vec<u8>, AllocError>
    requires far { place_in s true < length far.now }
    requires firsts { place_in s true < length firsts.now }
    ensures { IfOk result (λ l. AreFirstsBeside exits.now far.now s firsts.now l.items) }
{
    let free = first_at(exits, far, place_of(s, false));
    let down = first_at(exits, far, place_of(s, true));
    let moved = with_two(alloc, firsts, s, free, down)?;
    Ok(moved)
}

// The first ports, with two others in the places of a vertex.
fn with_two(alloc: Global, firsts: &[u8], s: u32, free: u8, down: u8) -> Result<Vec<u8>, AllocError>
    requires { place_in s true < length firsts.now }
    ensures { IfOk result (λ l. l.items
        ≡ slice_set (slice_set firsts.now (place_in s false) free) (place_in s true) down) }
{
    let mut others = Vec::from_slice(alloc, firsts)?;
    others[place_of(s, false)] = free;
    others[place_of(s, true)] = down;
    Ok(others)
}
