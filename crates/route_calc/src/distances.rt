//! How many legal channels each vertex is away from a host.
//!
//! ```text
//!   place   0               1                2               3                ..
//!           vertex 0, to    vertex 0, to     vertex 1, to    vertex 1, to     ..
//!           packets that    packets that     packets that    packets that
//!           went up alone   went down        went up alone   went down
//! ```

ghost use Rattle.std.specs.Prelude.{◌≡◌, ℕ, ◌<◌, ◌+◌, ◌*◌, true, false, length, IfOk};
ghost use Rattle.map_defs.specs.NetMap.{is_switch_vertex};
ghost use Rattle.map_defs.specs.Orientation.{order_of};
ghost use Rattle.route_calc.specs.Exits.{all_exits};
ghost use Rattle.route_calc.specs.Far.{AreDistances, far_at, place_in};
ghost use Rattle.route_calc.specs.Lowering.{IsStep, IsLowest, AreLowest, first_far, sweep, nearest_after, least_with};
ghost use Rattle.route_calc.specs.Lowering.{AreNumbered, AreSound, lowers, lowered};
ghost use Rattle.journal_defs.specs.Counting.{total};

use crate::entered::Exit;
use crate::exits::Exits;
use fabric_map::{FabricMap, MapVertex};
use std::alloc::{AllocError, Global};

/// Stands for more channels than any shortest way has.
pub(crate) const FAR: u8 = 255;

/// The fewest legal channels to a host from each vertex. A distance is lowered to one more than the nearest that a
/// legal channel leads to, until none can be: by one sweep where it is known that vertices are numbered as they stand
/// in the order, and else until a sweep lowers none.
pub(crate) fn distances(
    alloc: Global,
    m: &FabricMap,
    exits: &[Exits],
    numbered: bool,
    to: u32,
) -> Result<Vec<u8>, AllocError>
    requires exits { exits.now ≡ all_exits m.now (order_of m.now) }
    requires numbered { numbered ≡ true → AreNumbered m.now (order_of m.now) }
    requires vertex { to < length m.now.vertices }
    ensures distances { IfOk result (λ far. AreDistances m.now (order_of m.now) to far.items) }
    ensures long { IfOk result (λ far. length far.items ≡ 2 * length m.now.vertices) }
{
    let _ = m.vertices();
    let mut far = first_distances(alloc, m, to)?;
    'lower: while lower_again(m, exits, numbered, &mut far) {}
    Ok(far)
}

// The host alone is near.
fn first_distances(alloc: Global, m: &FabricMap, to: u32) -> Result<Vec<u8>, AllocError>
    requires { to < length m.now.vertices }
    ensures { IfOk result (λ far. far.items ≡ first_far (length m.now.vertices) to) }
{
    let mut far = vec![in alloc; FAR; 2 * m.vertices().len()]?;
    far[place_of(to, false)] = 0;
    far[place_of(to, true)] = 0;
    Ok(far)
}

// Lowers each distance once, and says whether there may be more to lower.
fn lower_again(m: &FabricMap, exits: &[Exits], numbered: bool, far: &mut [u8]) -> bool
    requires exits { exits.now ≡ all_exits m.now (order_of m.now) }
    requires numbered { numbered ≡ true → AreNumbered m.now (order_of m.now) }
    requires long { length far.old ≡ 2 * length m.now.vertices }
    ensures long { length far.new ≡ length far.old }
    ensures sound { (to : ℕ) → AreSound m.now (order_of m.now) to far.old → AreSound m.now (order_of m.now) to far.new }
    ensures less { result ≡ true → total far.new < total far.old }
    ensures settled { result ≡ false → AreLowest m.now (order_of m.now) far.new (2 * length m.now.vertices) }
{
    let lowers = lower_all(m, exits, far);
    if numbered { false } else { lowers }
}

// Lowers each distance once, and says whether one was lowered: first those after a channel down, from the last
// vertex on, since a channel down leads to a later one; then the others, from the first vertex on.
#[inline(never)]
fn lower_all(m: &FabricMap, exits: &[Exits], far: &mut [u8]) -> bool
    requires exits { exits.now ≡ all_exits m.now (order_of m.now) }
    requires long { length far.old ≡ 2 * length m.now.vertices }
    ensures step { IsStep m.now (order_of m.now) far.old far.new result }
    ensures settled { result ≡ false → AreLowest m.now (order_of m.now) far.new (2 * length m.now.vertices) }
    ensures swept { AreNumbered m.now (order_of m.now)
        → AreLowest m.now (order_of m.now) far.new (2 * length m.now.vertices) }
{
    let count = m.vertices().len();
    let mut lowers = false;
    for k in 0..2 * count {
        let (v, down) = sweep(count, k);
        if lower_at(m, exits, far, v, down) {
            lowers = true;
        }
    }
    lowers
}

// The vertex at a place of a sweep, and whether it is looked at for packets that went down.
fn sweep(count: usize, k: usize) -> (usize, bool)
    requires { k < 2 * count }
    ensures value { result ≡ sweep count k }
    ensures vertex { result.0 < count }
{
    if k < count {
        (count - 1 - k, true)
    } else {
        (k - count, false)
    }
}

// Lowers the distance of a vertex, if it is a switch: a host leads nowhere on.
fn lower_at(m: &FabricMap, exits: &[Exits], far: &mut [u8], v: usize, down: bool) -> bool
    requires exits { exits.now ≡ all_exits m.now (order_of m.now) }
    requires vertex { v < length m.now.vertices }
    requires long { length far.old ≡ 2 * length m.now.vertices }
    ensures step { IsStep m.now (order_of m.now) far.old far.new result }
    ensures settled { result ≡ false → IsLowest m.now (order_of m.now) far.new v down }
    ensures swept { (k : ℕ) → AreNumbered m.now (order_of m.now) → sweep (length m.now.vertices) k ≡ (v, down)
        → AreLowest m.now (order_of m.now) far.old k → AreLowest m.now (order_of m.now) far.new (k + 1) }
{
    let _ = m.vertices();
    if is_switch(m, v as u32) {
        lower(far, exits[v].list(), v as u32, down)
    } else {
        false
    }
}

// Lowers the distance of a vertex to one more than the nearest that its ports lead to.
fn lower(far: &mut [u8], exits: &[Exit], v: u32, down: bool) -> bool
    requires { place_in v down < length far.old }
    ensures value { far.new ≡ lowered far.old exits.now v down }
    ensures told { result ≡ lowers far.old exits.now v down }
{
    let place = place_of(v, down);
    let next = u16::from(nearest(far, exits, down)) + 1;
    if next < u16::from(far[place]) {
        far[place] = next as u8;
        true
    } else {
        false
    }
}

// The least distance that a port leads to. Each kind of packet has a loop of its own, with one question less a port.
fn nearest(far: &[u8], exits: &[Exit], down: bool) -> u8
    ensures { result ≡ nearest_after far.now down 255 exits.now }
{
    if down {
        nearest_down(far, exits)
    } else {
        nearest_at_all(far, exits)
    }
}

// The least distance that a port leads to, to a packet that went down.
fn nearest_down(far: &[u8], exits: &[Exit]) -> u8
    ensures { result ≡ nearest_after far.now true 255 exits.now }
{
    let mut least = FAR;
    for exit in exits {
        least = least_with(far, true, least, *exit);
    }
    least
}

// The least distance that a port leads to, to a packet that went up alone.
fn nearest_at_all(far: &[u8], exits: &[Exit]) -> u8
    ensures { result ≡ nearest_after far.now false 255 exits.now }
{
    let mut least = FAR;
    for exit in exits {
        least = least_with(far, false, least, *exit);
    }
    least
}

// The lesser of a distance and that of one more port, if a packet may go there.
fn least_with(far: &[u8], down: bool, least: u8, exit: Exit) -> u8
    ensures { result ≡ least_with far.now down least exit }
{
    let at = far_at(far, exit.next.v, exit.next.down);
    if (!down || exit.next.down) && at < least {
        at
    } else {
        least
    }
}

/// The distance of a vertex, to a packet that went down already, or didn't.
pub(crate) fn far_at(far: &[u8], v: u32, down: bool) -> u8
    ensures { result ≡ far_at far.now v down }
{
    let place = place_of(v, down);
    if place < far.len() { far[place] } else { FAR }
}

/// The place of a distance.
pub(crate) fn place_of(v: u32, down: bool) -> usize
    ensures { result ≡ place_in v down }
{
    if down {
        2 * v as usize + 1
    } else {
        2 * v as usize
    }
}

/// Whether a vertex is a switch.
pub(crate) fn is_switch(m: &FabricMap, v: u32) -> bool
    ensures { result ≡ is_switch_vertex m.now v }
{
    match m.vertices().get(v as usize) {
        Some(MapVertex::Switch(_)) => true,
        _ => false,
    }
}
