//! Walks that go on by a turn.

ghost use Rattle.std.specs.Prelude.{◌≡◌, ◌<◌, ◌+◌, ◌++◌, ◌∷◌, [], length, take, All, None, IfOk};
ghost use Rattle.net_defs.specs.Turn.{IsTurn, walk_refusal};
ghost use Rattle.mapper.specs.Turns.{IsOnward, turn_at};

use net_defs::{Walk, WalkFault};
use std::alloc::{AllocError, Global};

/// How many turns a node has.
pub const TURNS: u8 = 30;

// The most turns of a walk.
const MAX_TURNS: usize = 64;

/// The turn that is asked as number `step`, from 0: the turns rise from -15 to 15, without 0.
pub fn turn_at(step: u8) -> i8
    requires { step < 30 }
    ensures value { result ≡ turn_at step }
    ensures in_range { IsTurn result }
{
    if step < 15 {
        step as i8 - 15
    } else {
        step as i8 - 14
    }
}

/// The walk without turns.
pub fn empty_walk(alloc: Global) -> Result<Walk, AllocError>
    ensures { IfOk result (λ walk. walk ≡ []) }
{
    walk_of(alloc, &[])
}

/// A walk with a turn more. There is room for it.
pub(crate) fn onward(alloc: Global, front: &[i8], turn: i8) -> Result<Walk, AllocError>
    requires short { length front.now < 64 }
    requires front { All IsTurn front.now }
    requires turn { IsTurn turn }
    ensures { IfOk result (λ walk. walk ≡ front.now ++ turn ∷ []) }
{
    let turns = one_more(front, turn);
    walk_of(alloc, &turns[..=front.len()])
}

/// Another walk that goes on from this front, by this turn: the one at hand takes the turn, and is copied. So its turns
/// are tested once for all turns of a node.
pub(crate) fn onward_by(
    alloc: Global,
    next: &mut Walk,
    _front: &[i8],
    turn: i8,
) -> Result<Walk, AllocError>
    requires next { IsOnward _front.now next.old }
    requires turn { IsTurn turn }
    ensures next { IsOnward _front.now next.new }
    ensures walk { IfOk result (λ walk. walk ≡ _front.now ++ turn ∷ []) }
{
    next.turn_last(turn);
    let walk = next.copied(alloc)?;
    Ok(walk)
}

// Turns with one more after them, and zeros after that.
fn one_more(front: &[i8], turn: i8) -> [i8; MAX_TURNS]
    requires { length front.now < MAX_TURNS }
    ensures { take (length front.now + 1) result ≡ front.now ++ turn ∷ [] }
{
    let mut turns = [0; MAX_TURNS];
    turns[..front.len()].copy_from_slice(front);
    turns[front.len()] = turn;
    turns
}

// The walk of turns that are one.
fn walk_of(alloc: Global, turns: &[i8]) -> Result<Walk, AllocError>
    requires { walk_refusal turns.now ≡ None }
    ensures { IfOk result (λ walk. walk ≡ turns.now) }
{
    match Walk::new(alloc, turns) {
        Ok(walk) => Ok(walk),
        Err(WalkFault::NoMemory) => Err(AllocError),
        Err(WalkFault::TooLong) => unreachable!(),
        Err(WalkFault::TurnRange) => unreachable!(),
    }
}
