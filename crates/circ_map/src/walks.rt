//! Walks that go on by a turn.

ghost use Rattle.std.specs.Prelude.{◌≡◌, ◌<◌, ◌++◌, ◌∷◌, [], length, All, None, IfOk};
ghost use Rattle.net_defs.specs.Turn.{IsTurn, walk_refusal};

use net_defs::{Walk, WalkFault};
use std::alloc::{AllocError, Global};

/// A walk with a turn more.
pub(crate) fn onward(alloc: Global, front: &[i8], turn: i8) -> Result<Walk, AllocError>
    requires short { length front.now < 64 }
    requires front { All IsTurn front.now }
    requires turn { IsTurn turn }
    ensures { IfOk result (λ walk. walk ≡ front.now ++ turn ∷ []) }
{
    let mut turns = Vec::with_capacity(alloc, front.len() + 1)?;
    turns.extend_from_slice(front)?;
    turns.push(turn)?;
    walk_of(alloc, &turns)
}

// The walk of turns that are one.
fn walk_of(alloc: Global, turns: &[i8]) -> Result<Walk, AllocError>
    requires { walk_refusal turns.now ≡ None }
    ensures { IfOk result (λ walk. walk ≡ turns.now) }
{
    match Walk::new(alloc, turns) {
        Ok(walk) => Ok(walk),
        Err(WalkFault::NoMemory) => Err(AllocError),
        Err(WalkFault::TooLong) => unreachable!(),
        Err(WalkFault::TurnRange) => unreachable!(),
    }
}
