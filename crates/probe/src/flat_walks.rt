//! Walks in order, their turns one after another in one block.

ghost use Rattle.std.specs.Prelude.{◌≡◌, ◌<◌, ◌≤◌, ◌+◌, ◌++◌, ◌∷◌, [], length, slice_index_or, slice_range};
ghost use Rattle.std.specs.Prelude.{IfOk, OnOk, OnErr};

use crate::walk_list::WalkList;
use std::alloc::{AllocError, Global};
use std::marker::Model;

/// Walks in the order in which they came. All their turns together are fewer than 2^32. Contracts see the list of
/// walks.
#[derive(Drop)]
pub(crate) struct FlatWalks {
    turns: Vec<i8>,
    // Where the turns of each walk end. Those of the next begin there.
    ends: Vec<u32>,
}

impl Model for FlatWalks {
    ghost use Rattle.std.specs.Prelude.{ℤ, List};
    ghost use Rattle.probe.specs.Flat.{walks_in, AreEnds};

    ghost Value = { List (List ℤ) };

    ghost view = { λ w. walks_in w.turns.items 0 w.ends.items };

    ghost invariant = { λ w. AreEnds w.turns.items 0 w.ends.items };
}

impl FlatWalks {
    /// No walks. It takes no memory.
    pub(crate) fn new(alloc: Global) -> FlatWalks
        ensures { result ≡ [] }
    {
        FlatWalks {
            turns: Vec::new(alloc),
            ends: Vec::new(alloc),
        }
    }

    /// Adds a walk.
    pub(crate) fn push(&mut self, turns: &[i8]) -> Result<(), AllocError>
        ensures ok { OnOk result (self.new ≡ self.old ++ turns.now ∷ []) }
        ensures err { OnErr result (self.new ≡ self.old) }
    {
        let end = end_behind(self.turns.len(), turns.len())?;
        self.ends.reserve(1)?;
        self.turns.extend_from_slice(turns)?;
        self.ends.push_reserved(end);
        Ok(())
    }

    /// The same walks in memory of their own.
    pub(crate) fn copied(&self, alloc: Global) -> Result<FlatWalks, AllocError>
        ensures { IfOk result (λ walks. walks ≡ self.now) }
    {
        let turns = Vec::from_slice(alloc, &self.turns)?;
        let ends = Vec::from_slice(alloc, &self.ends)?;
        Ok(FlatWalks { turns, ends })
    }
}

impl WalkList for FlatWalks {
    ghost list = { λ walks. walks };

    fn count(&self) -> usize {
        self.ends.len()
    }

    fn turns_at(&self, at: usize) -> &[i8] {
        let start = start_of(&self.ends, at);
        part(&self.turns, start, self.ends[at] as usize)
    }
}

// The turns from a place up to another.
fn part(turns: &[i8], start: usize, end: usize) -> &[i8]
    requires order { start ≤ end }
    requires within { end ≤ length turns.now }
    ensures { result.now ≡ slice_range turns.now start end }
{
    &turns[start..end]
}

// Where the turns of a walk begin.
fn start_of(ends: &[u32], at: usize) -> usize
    requires { at < length ends.now }
    ensures { result ≡ slice_index_or (0 ∷ ends.now) at 0 }
{
    if at == 0 { 0 } else { ends[at - 1] as usize }
}

// Where so many turns end after so many.
fn end_behind(start: usize, turns: usize) -> Result<u32, AllocError>
    ensures { IfOk result (λ end. end ≡ start + turns) }
{
    let most = u32::MAX as usize;
    if start > most || turns > most - start {
        return Err(AllocError);
    }
    Ok((start + turns) as u32)
}
