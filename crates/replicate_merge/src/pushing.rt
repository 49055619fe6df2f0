//! What an entry adds to a journal's nodes: the ways of its node, and how many of the node's turns are asked already.

ghost use Rattle.std.specs.Prelude.{◌≡◌, ◌≤◌, ◌+◌, ◌++◌, ◌∷◌, [], ◌<◌, ◌^◌, ◌-ℤ◌, if◌then◌else◌, pos, true, false};
ghost use Rattle.std.specs.Prelude.{length, slice_get, Some, IfOk, OnOk};
ghost use Rattle.journal_defs.specs.Walks.{onward_turns};
ghost use Rattle.replicate_merge.specs.Nodes.{nodes_of};
ghost use Rattle.replicate_merge.specs.Onward.{AddsBelow, AreNewWays, AreOnce, is_known, known_among};
ghost use Rattle.replicate_merge.specs.Behind.{AddsBehind};
ghost use Rattle.replicate_merge.specs.Between.{IsFrontOf};

use crate::Way;
use crate::fronts::Front;
use crate::ways::{own_ways, push_both};
use net_defs::Answer;
use probe::WalkIndex;
use std::alloc::{AllocError, Global};

// The turns from -15 to 15 are so many.
const ALL_TURNS: usize = 31;

// The turns of a node other than 0 are so many.
const ONWARD_TURNS: usize = 30;

/// Puts the ways that an entry adds in the place of others: of its host, between its node and the node in front, and
/// between it and each node behind that was there before it. None was where no walk was asked ahead of its front.
pub(crate) fn ways_added(
    alloc: Global,
    ways: &mut Vec<Way>,
    walks: &WalkIndex,
    ahead: bool,
    walk: &[i8],
    answer: Answer,
    front: Front,
) -> Result<(), AllocError>
    requires few { length walks.now + 1 < 2 ^ 32 }
    requires once { AreOnce (nodes_of walks.now) }
    requires front { IsFrontOf (nodes_of walks.now) walk.now front }
    ensures { OnOk result (AreNewWays (nodes_of walks.now) (record { walk = walk.now; answer = answer })
        (length walks.now + 1) ahead ways.new.items) }
{
    let node = (walks.len() + 1) as u32;
    own_ways(ways, walks, walk, answer, node, front)?;
    if !ahead {
        return Ok(());
    }
    push_all_behind(alloc, ways, walks, walk, node)?;
    Ok(())
}

// Adds the ways between a node and each behind it that was there before it.
fn push_all_behind(
    alloc: Global,
    ways: &mut Vec<Way>,
    walks: &WalkIndex,
    walk: &[i8],
    node: u32,
) -> Result<(), AllocError>
    requires few { length walks.now + 1 < 2 ^ 32 }
    requires once { AreOnce (nodes_of walks.now) }
    ensures { OnOk result (AddsBelow (nodes_of walks.now) walk.now node 31 ways.old.items ways.new.items) }
{
    let mut next = walk_with_room(alloc, walk)?;
    for place in 0..ALL_TURNS {
        push_behind(ways, walks, &mut next, turn_at(place), node)?;
    }
    Ok(())
}

// The turns in rising order, from -15 at place 0.
fn turn_at(place: usize) -> i8
    requires { place < 31 }
    ensures { result ≡ pos place -ℤ pos 15 }
{
    place as i8 - 15
}

// The turns other than 0 in rising order.
fn onward_turn(place: usize) -> i8
    requires { place < 30 }
    ensures { slice_get onward_turns place ≡ Some result }
{
    if place < 15 {
        turn_at(place)
    } else {
        turn_at(place + 1)
    }
}

// A walk, with room for one turn more.
fn walk_with_room(alloc: Global, walk: &[i8]) -> Result<Vec<i8>, AllocError>
    ensures { IfOk result (λ next. next.items ≡ walk.now) }
{
    let mut next = Vec::with_capacity(alloc, walk.len() + 1)?;
    next.extend_from_slice(walk)?;
    Ok(next)
}

// Adds the ways between a node and the one behind its turn, where that is there. The walk stays as it was.
fn push_behind(
    ways: &mut Vec<Way>,
    walks: &WalkIndex,
    walk: &mut Vec<i8>,
    turn: i8,
    node: u32,
) -> Result<(), AllocError>
    requires few { length walks.now + 1 < 2 ^ 32 }
    ensures same { OnOk result (walk.new.items ≡ walk.old.items) }
    ensures adds { OnOk result (AddsBehind walks.now walk.old.items turn node ways.old.items ways.new.items) }
{
    walk.push(turn)?;
    let behind = walks.find(walk);
    let _turn = walk.pop();
    match behind {
        Some(at) => push_both(ways, node, turn, (at + 1) as u32),
        None => Ok(()),
    }
}

/// How many turns other than 0 of a walk are asked, where these walks and the orphans are all that is asked of it.
pub(crate) fn asked_behind(
    alloc: Global,
    walks: &WalkIndex,
    orphans: &WalkIndex,
    ahead: bool,
    walk: &[i8],
) -> Result<u8, AllocError>
    ensures looked { ahead ≡ true → IfOk result (λ count. count ≡
        known_among walks.now orphans.now walk.now onward_turns) }
    ensures none { ahead ≡ false → IfOk result (λ count. count ≡ 0) }
{
    if !ahead {
        return Ok(0);
    }
    count_behind(alloc, walks, orphans, walk)
}

// How many of them are asked, looked up one by one.
fn count_behind(
    alloc: Global,
    walks: &WalkIndex,
    orphans: &WalkIndex,
    walk: &[i8],
) -> Result<u8, AllocError>
    ensures { IfOk result (λ count. count ≡ known_among walks.now orphans.now walk.now onward_turns) }
{
    let mut next = walk_with_room(alloc, walk)?;
    let mut count = 0;
    for place in 0..ONWARD_TURNS {
        count += one_if(is_known(walks, orphans, &mut next, onward_turn(place))?);
    }
    Ok(count)
}

// 1 where it is so.
fn one_if(known: bool) -> u8
    ensures value { result ≡ (if known then 1 else 0) }
    ensures small { result ≤ 1 }
{
    if known { 1 } else { 0 }
}

// Whether a turn of a walk is among these walks. The walk stays as it was.
fn is_known(
    walks: &WalkIndex,
    orphans: &WalkIndex,
    walk: &mut Vec<i8>,
    turn: i8,
) -> Result<bool, AllocError>
    ensures known { IfOk result (λ known. known ≡ is_known walks.now orphans.now (walk.old.items ++ turn ∷ [])) }
    ensures same { OnOk result (walk.new.items ≡ walk.old.items) }
{
    walk.push(turn)?;
    let known = walks.find(walk).is_some() || orphans.find(walk).is_some();
    let _turn = walk.pop();
    Ok(known)
}
