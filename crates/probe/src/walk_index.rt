//! Walks in order, found by their turns.

ghost use Rattle.std.specs.Prelude.{◌≡◌, ◌<◌, ◌++◌, ◌∷◌, [], false, length, slice_get, is_some, Some, IfSome, IfOk};
ghost use Rattle.std.specs.Prelude.{true, OnOk, OnErr};
ghost use Rattle.probe.specs.Keeping.{has_walk};

use crate::chains::{
    Chains, add, copied, find, found_among, found_onward, hash_of, index, make_room, no_chains,
};
use crate::flat_walks::FlatWalks;
use crate::walk_list::WalkList;
use std::alloc::{AllocError, Global};
use std::marker::Model;

/// Walks in the order in which they came, none twice. Contracts see the list of walks.
///
/// [`WalkIndex::push`] makes an index, by which a walk is found by a hash of its turns, and which is kept up from then
/// on. Walks that came by [`WalkIndex::append`] alone have none: they are looked at one after another.
#[derive(Drop)]
pub struct WalkIndex {
    walks: FlatWalks,
    chains: Chains,
}

impl Model for WalkIndex {
    ghost use Rattle.std.specs.Prelude.{ℤ, List, ◌<◌, length};
    ghost use Rattle.net_defs.specs.Network.{Apart};
    ghost use Rattle.probe.specs.Keeping.{AreIndexed};

    ghost Value = { List (List ℤ) };

    ghost view = { λ w. w.walks };

    ghost invariant = { λ w. Apart w.walks × (0 < length w.chains.before.items → AreIndexed w.walks
        w.chains.latest.items w.chains.before.items) };
}

impl WalkIndex {
    /// No walks. It takes no memory.
    pub fn new(alloc: Global) -> WalkIndex
        ensures { result ≡ [] }
    {
        WalkIndex {
            walks: FlatWalks::new(alloc),
            chains: no_chains(alloc),
        }
    }

    /// How many walks there are.
    pub fn len(&self) -> usize
        ensures { result ≡ length self.now }
    {
        self.walks.count()
    }

    /// The turns of the walk at a place.
    pub fn walk(&self, at: usize) -> &[i8]
        requires { at < length self.now }
        ensures { slice_get self.now at ≡ Some result.now }
    {
        self.walks.turns_at(at)
    }

    /// The place of a walk, counted from 0; none where it isn't there.
    pub fn find(&self, turns: &[i8]) -> Option<usize>
        ensures place { IfSome result (λ at. slice_get self.now at ≡ Some turns.now) }
        ensures found { is_some result ≡ has_walk self.now turns.now }
    {
        if self.chains.before.is_empty() {
            found_among(&self.walks, turns)
        } else {
            find(&self.walks, &self.chains, turns, hash_of(turns))
        }
    }

    /// The place of a walk, as `find` gives it. A place where it is likely to stand is looked at first, and then, where
    /// there is no index, those behind it.
    pub fn find_near(&self, turns: &[i8], likely: usize) -> Option<usize>
        ensures place { IfSome result (λ at. slice_get self.now at ≡ Some turns.now) }
        ensures found { is_some result ≡ has_walk self.now turns.now }
    {
        if self.chains.before.is_empty() {
            found_onward(&self.walks, turns, likely)
        } else if self.is_at(turns, likely) {
            Some(likely)
        } else {
            self.find(turns)
        }
    }

    // Whether a walk stands at a place.
    fn is_at(&self, turns: &[i8], at: usize) -> bool
        ensures { result ≡ true → slice_get self.now at ≡ Some turns.now }
    {
        at < self.len() && self.walk(at) == turns
    }

    /// Makes the index, if there is none.
    pub fn index(&mut self) -> Result<(), AllocError>
        ensures { self.new ≡ self.old }
    {
        index(&self.walks, &mut self.chains)
    }

    /// Adds a walk that isn't there. Where there is no index, one is made.
    pub fn push(&mut self, alloc: Global, turns: &[i8]) -> Result<(), AllocError>
        requires { has_walk self.old turns.now ≡ false }
        ensures ok { OnOk result (self.new ≡ self.old ++ turns.now ∷ []) }
        ensures err { OnErr result (self.new ≡ self.old) }
    {
        index(&self.walks, &mut self.chains)?;
        make_room(&self.walks, &mut self.chains)?;
        self.walks.push(turns)?;
        add(&mut self.chains, hash_of(turns));
        Ok(())
    }

    /// The same, but no index is made. One that is there is kept up.
    pub fn append(&mut self, alloc: Global, turns: &[i8]) -> Result<(), AllocError>
        requires { has_walk self.old turns.now ≡ false }
        ensures ok { OnOk result (self.new ≡ self.old ++ turns.now ∷ []) }
        ensures err { OnErr result (self.new ≡ self.old) }
    {
        let chained = self.chains.before.len();
        if chained == 0 {
            self.walks.push(turns)
        } else {
            self.push(alloc, turns)
        }
    }

    /// The same walks in memory of their own.
    pub fn copied(&self, alloc: Global) -> Result<WalkIndex, AllocError>
        ensures { IfOk result (λ walks. walks ≡ self.now) }
    {
        let walks = self.walks.copied(alloc)?;
        let chains = copied(alloc, &self.chains)?;
        Ok(WalkIndex { walks, chains })
    }
}
