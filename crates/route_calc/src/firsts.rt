//! By which port a way goes on: for each distance the first port of its vertex that leads one channel nearer.

ghost use Rattle.std.specs.Prelude.{◌≡◌, ◌≤◌, ◌<◌, ◌/◌, ◌%◌, ℕ, Bool, length, nat_eq, slice_get, IfOk};
ghost use Rattle.route_calc.specs.Exits.{exits_at};
ghost use Rattle.route_calc.specs.Far.{far_at, place_in};
ghost use Rattle.route_calc.specs.Firsts.{AreFirst, IsFirst};
ghost use Rattle.route_calc.specs.Turning.{first_exit, leads_within};

use crate::distances::{FAR, far_at};
use crate::entered::Exit;
use crate::exits::Exits;
use std::alloc::{AllocError, Global};

/// The number of the first port that leads nearer, for each distance to a host.
#[inline(never)]
pub(crate) fn firsts(alloc: Global, exits: &[Exits], far: &[u8]) -> Result<Vec<u8>, AllocError>
    ensures first { IfOk result (λ firsts. AreFirst exits.now far.now firsts.items) }
    ensures long { IfOk result (λ firsts. length firsts.items ≡ length far.now) }
{
    let mut firsts = vec![in alloc; 0; far.len()]?;
    for place in 0..far.len() {
        firsts[place] = first_at(exits, far, place);
    }
    Ok(firsts)
}

/// The number of the first port that leads nearer, for the distance at a place.
pub(crate) fn first_at(exits: &[Exits], far: &[u8], place: usize) -> u8
    requires { place < length far.now }
    ensures { (v : ℕ) (down : Bool) → place ≡ place_in v down → IsFirst exits.now far.now v down result }
{
    let distance = far[place];
    if distance == 0 || distance == FAR {
        0
    } else {
        first_from(exits, far, distance - 1, place / 2, place % 2 == 1)
    }
}

// The number of the first port of a vertex that leads so near.
fn first_from(exits: &[Exits], far: &[u8], left: u8, v: usize, down: bool) -> u8
    ensures { slice_get (exits_at exits.now v) result ≡ first_exit far.now left down (exits_at exits.now v) }
{
    if v < exits.len() {
        first_of(exits[v].list(), far, left, down)
    } else {
        0
    }
}

// The number of the first port that leads so near.
fn first_of(exits: &[Exit], far: &[u8], left: u8, down: bool) -> u8
    requires { length exits.now ≤ 31 }
    ensures { slice_get exits.now result ≡ first_exit far.now left down exits.now }
{
    for k in 0..exits.len() {
        let exit = exits[k];
        if leads_within(far, left, down, exit) {
            return k as u8;
        }
    }
    exits.len() as u8
}

// Whether a packet may go by a port, and is within so many channels then.
fn leads_within(far: &[u8], left: u8, down: bool, exit: Exit) -> bool
    ensures { result ≡ leads_within far.now left down exit }
{
    (!down || exit.next.down) && far_at(far, exit.next.v, exit.next.down) <= left
}
