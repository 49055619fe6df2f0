//! A walk: the turns that a packet takes, one at each switch.

ghost use Rattle.std.specs.Prelude.{◌≡◌, ◌≤◌, ◌<◌, ◌-◌, ◌++◌, ◌∷◌, [], length, take, true, IfOk, All};
ghost use Rattle.net_defs.specs.Refusal.{Refuses};
ghost use Rattle.std.specs.List.{list_all};
ghost use Rattle.net_defs.specs.Turn.{is_turn, IsTurn, walk_refusal};

use crate::turn_list::{FEW_TURNS, TurnList};
use std::alloc::{AllocError, Global};
use std::marker::Model;
use thiserror::Error;

/// The most turns of a walk.
pub const MAX_TURNS: usize = 64;

/// The greatest turn; the least is its negative.
pub const MAX_TURN: i8 = 15;

/// Why turns are no walk.
#[derive(Clone, Copy, Debug, PartialEq, Eq, Error)]
pub enum WalkFault {
    /// There are more than 64.
    #[error("a walk has at most {max} turns", max = MAX_TURNS)]
    TooLong,
    /// One lies outside -15 to 15.
    #[error("a turn is from -{max} to {max}", max = MAX_TURN)]
    TurnRange,
    /// Memory ran out for turns that are a walk.
    #[error("out of memory")]
    NoMemory,
}

/// At most 64 turns, each from -15 to 15. Contracts see the list of its turns.
///
/// At a switch entered by port e the turn t leaves by port e + t.
#[derive(Debug, Drop)]
pub struct Walk {
    turns: TurnList,
}

impl Model for Walk {
    ghost use Rattle.std.specs.Prelude.{ℤ, List, ◌≤◌, length, All};
    ghost use Rattle.net_defs.specs.Turn.{IsTurn};
    ghost use Rattle.net_defs.specs.TurnList.{FitsItsPlaces, turns_in};

    ghost Value = { List ℤ };

    ghost view = { λ w. turns_in w.turns };

    ghost invariant = { λ w. FitsItsPlaces w.turns × (length (turns_in w.turns) ≤ 64) × All IsTurn (turns_in w.turns) };
}

impl Walk {
    /// The walk of these turns.
    pub fn new(alloc: Global, turns: &[i8]) -> Result<Walk, WalkFault>
        ensures ok { IfOk result (λ walk. walk ≡ turns.now) }
        ensures refused { Refuses (walk_refusal turns.now) WalkFault.NoMemory result }
    {
        if turns.len() > MAX_TURNS {
            return Err(WalkFault::TooLong);
        }
        if !are_turns(turns) {
            return Err(WalkFault::TurnRange);
        }
        match TurnList::new(alloc, turns) {
            Ok(turns) => Ok(Walk { turns }),
            Err(_) => Err(WalkFault::NoMemory),
        }
    }

    /// The walk of the first so many of these turns. It takes no memory.
    pub fn of_few(count: u8, turns: [i8; FEW_TURNS]) -> Walk
        requires few { count ≤ 14 }
        requires in_range { list_all is_turn (take count turns) ≡ true }
        ensures { result ≡ take count turns }
    {
        Walk {
            turns: TurnList::Few(count, turns),
        }
    }

    /// Its turns, in the order of the switches.
    pub fn turns(&self) -> &[i8]
        ensures value { result.now ≡ self.now }
        ensures short { length result.now ≤ 64 }
        ensures in_range { All IsTurn result.now }
    {
        self.turns.turns()
    }

    /// Another walk of the same turns. Few are copied where the call stands.
    #[inline(always)]
    pub fn copied(&self, alloc: Global) -> Result<Walk, AllocError>
        ensures { IfOk result (λ walk. walk ≡ self.now) }
    {
        let turns = self.turns.copied(alloc)?;
        Ok(Walk { turns })
    }

    /// Puts a turn in the place of the last one. It takes no memory.
    pub fn turn_last(&mut self, turn: i8)
        requires turn { IsTurn turn }
        requires some { 0 < length self.old }
        ensures { self.new ≡ take (length self.old - 1) self.old ++ turn ∷ [] }
    {
        self.turns.put_last(turn);
    }
}

// Whether each is from -15 to 15.
fn are_turns(turns: &[i8]) -> bool
    ensures { result ≡ list_all is_turn turns.now }
{
    turns
        .iter()
        .all(|turn| -MAX_TURN <= *turn && *turn <= MAX_TURN)
}
