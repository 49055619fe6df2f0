//! The turns of a walk: in the walk itself where they are few, else in a block of their own.

ghost use Rattle.std.specs.Prelude.{◌≡◌, ◌≤◌, ◌<◌, ◌-◌, ◌++◌, ◌∷◌, [], length, take, IfOk};
ghost use Rattle.net_defs.specs.TurnList.{FitsItsPlaces, turns_in};

use std::alloc::{AllocError, Global};

/// How many turns take no block of their own. Few walks are longer, and with 14 of them a list takes 16 bytes.
pub const FEW_TURNS: usize = 14;

/// Turns in their order.
#[derive(Debug, Drop)]
pub(crate) enum TurnList {
    /// The first so many of the places.
    Few(u8, [i8; FEW_TURNS]),
    /// In a block of their own.
    Many(Box<Vec<i8>>),
}

impl TurnList {
    /// These turns.
    pub(crate) fn new(alloc: Global, turns: &[i8]) -> Result<TurnList, AllocError>
        ensures turns { IfOk result (λ list. turns_in list ≡ turns.now) }
        ensures sound { IfOk result (λ list. FitsItsPlaces list) }
    {
        if turns.len() <= FEW_TURNS {
            Ok(few(turns))
        } else {
            many(alloc, turns)
        }
    }

    /// The same turns again. Few of them are copied with their places, whatever their number.
    #[inline(always)]
    pub(crate) fn copied(&self, alloc: Global) -> Result<TurnList, AllocError>
        requires { FitsItsPlaces self.now }
        ensures turns { IfOk result (λ list. turns_in list ≡ turns_in self.now) }
        ensures sound { IfOk result (λ list. FitsItsPlaces list) }
    {
        match self {
            TurnList::Few(count, places) => Ok(TurnList::Few(*count, *places)),
            TurnList::Many(turns) => many(alloc, turns.as_slice()),
        }
    }

    /// The turns.
    pub(crate) fn turns(&self) -> &[i8]
        requires { FitsItsPlaces self.now }
        ensures { result.now ≡ turns_in self.now }
    {
        match self {
            TurnList::Few(count, places) => &places[..usize::from(*count)],
            TurnList::Many(turns) => turns.as_slice(),
        }
    }

    /// Puts a turn in the place of the last one.
    pub(crate) fn put_last(&mut self, turn: i8)
        requires sound { FitsItsPlaces self.old }
        requires some { 0 < length (turns_in self.old) }
        ensures turns { turns_in self.new ≡ take (length (turns_in self.old) - 1) (turns_in self.old) ++ turn ∷ [] }
        ensures sound { FitsItsPlaces self.new }
    {
        let last = self.turns().len() - 1;
        match self {
            TurnList::Few(_, places) => places[last] = turn,
            TurnList::Many(turns) => turns[last] = turn,
        }
    }
}

// Turns for which there are places.
fn few(turns: &[i8]) -> TurnList
    requires { length turns.now ≤ 14 }
    ensures turns { turns_in result ≡ turns.now }
    ensures sound { FitsItsPlaces result }
{
    let mut places = [0; FEW_TURNS];
    places[..turns.len()].copy_from_slice(turns);
    TurnList::Few(turns.len() as u8, places)
}

// Turns in a block of their own.
fn many(alloc: Global, turns: &[i8]) -> Result<TurnList, AllocError>
    ensures turns { IfOk result (λ list. turns_in list ≡ turns.now) }
    ensures sound { IfOk result (λ list. FitsItsPlaces list) }
{
    let turns = Vec::from_slice(alloc, turns)?;
    Ok(TurnList::Many(Box::new(alloc, turns)?))
}
