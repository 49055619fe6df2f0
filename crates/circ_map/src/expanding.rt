//! The 30 turns of one switch.

ghost use Rattle.std.specs.Prelude.{◌≡◌, ◌+◌, ◌<◌, ◌≤◌, ◌&&◌, length, nat_lt, slice_get, true, false, None, Ok, Some};
ghost use Rattle.std.specs.Prelude.{IfOk, IfSome, OnOk, IsTrue, ◌↔◌};
ghost use Rattle.net_defs.specs.declared.place.Answer.{Answer};
ghost use Rattle.journal_defs.specs.declared.entry.Entry.{Entry};
ghost use Rattle.journal_defs.specs.Growth.{crossed};
ghost use Rattle.circ_map.specs.Growing.{IsAsking, IsOpen, IsPassed, IsShut, front_of};

use crate::asking::ask;
use crate::prober::CircProber;
use crate::tree::Tree;
use crate::walks::onward;
use mapper::{TURNS, turn_at};
use net_defs::{Answer, Walk};
use probe::Entry;
use std::alloc::{AllocError, Global};

/// Asks the turns of the entry at a place, if it is a switch that is near enough; answers whether one more node may
/// be found.
pub(crate) fn expand<P: CircProber>(
    alloc: Global,
    p: &mut P,
    tree: &mut Tree,
    depth: u8,
    at: usize,
) -> Result<bool, AllocError>
    requires shallow { depth ≤ 32 }
    requires there { at < length tree.old.found.items }
    requires asking { IsAsking (P.fabric p.old) (P.mapper p.old) depth tree.old.found.items tree.old.asks at 0 }
    ensures goes_on { result ≡ Ok true → IsAsking (P.fabric p.old)
        (P.mapper p.old) depth tree.new.found.items tree.new.asks (at + 1) 0 }
    ensures passed { result ≡ Ok false → IsPassed (P.fabric p.old) (P.mapper p.old) depth tree.new.asks }
    ensures host { OnOk result (tree.new.host ≡ tree.old.host) }
    ensures same_fabric { P.fabric p.new ≡ P.fabric p.old }
    ensures same_mapper { P.mapper p.new ≡ P.mapper p.old }
{
    match open_walk(alloc, &tree.found, depth, at)? {
        Some(mut walk) => expand_walk(alloc, p, tree, depth, at, &mut walk),
        None => Ok(true),
    }
}

// Asks the turns of a walk that found a switch near enough, in rising order: each is put at the end of one walk, of
// which what was found takes a copy.
fn expand_walk<P: CircProber>(
    alloc: Global,
    p: &mut P,
    tree: &mut Tree,
    depth: u8,
    at: usize,
    walk: &mut Walk,
) -> Result<bool, AllocError>
    requires shallow { depth ≤ 32 }
    requires open { IsOpen depth tree.old.found.items at (front_of walk.old) }
    requires some { 0 < length walk.old }
    requires asking { IsAsking (P.fabric p.old) (P.mapper p.old) depth tree.old.found.items tree.old.asks at 0 }
    ensures goes_on { result ≡ Ok true → IsAsking (P.fabric p.old)
        (P.mapper p.old) depth tree.new.found.items tree.new.asks (at + 1) 0 }
    ensures passed { result ≡ Ok false → IsPassed (P.fabric p.old) (P.mapper p.old) depth tree.new.asks }
    ensures host { OnOk result (tree.new.host ≡ tree.old.host) }
    ensures same_fabric { P.fabric p.new ≡ P.fabric p.old }
    ensures same_mapper { P.mapper p.new ≡ P.mapper p.old }
{
    for step in 0..TURNS {
        walk.turn_last(turn_at(step));
        if !ask(alloc, p, tree, walk)? {
            return Ok(false);
        }
    }
    Ok(true)
}

// The walk of the entry at a place with a turn more, if it is a switch that is near enough.
fn open_walk(
    alloc: Global,
    found: &[Entry],
    depth: u8,
    at: usize,
) -> Result<Option<Walk>, AllocError>
    requires shallow { depth ≤ 32 }
    requires there { at < length found.now }
    ensures open { IfOk result (λ walk. IfSome walk (λ w. IsOpen depth found.now at (front_of w))) }
    ensures some { IfOk result (λ walk. IfSome walk (λ w. 0 < length w)) }
    ensures shut { result ≡ Ok None → IsShut depth found.now at }
{
    let e = &found[at];
    let turns = e.walk.turns();
    if is_switch(e.answer) && turns.len() + 1 < usize::from(depth) {
        Ok(Some(onward(alloc, turns, 0)?))
    } else {
        Ok(None)
    }
}

// Whether a switch was found.
fn is_switch(answer: Answer) -> bool
    ensures { IsTrue result ↔ (answer ≡ Answer.Switch) }
{
    match answer {
        Answer::Switch => true,
        Answer::Host(_) | Answer::Nothing => false,
    }
}
