//! A path list by the numbers of its cables.

ghost use Rattle.std.specs.Prelude.{◌≡◌, ◌<◌, ◌++◌, ◌∷◌, [], length, slice_get, IfSome, OnOk, IfOk};
ghost use Rattle.circ_ears.specs.EarLists.{numbers_of};

use crate::trail::{cables_on, joined};
use crate::two_walks::PathBack;
use std::alloc::{AllocError, Global};
use std::marker::Model;

/// The cables of a path and of its return walk, in order.
#[derive(Drop)]
struct EarCables {
    path: Vec<u16>,
    back: Vec<u16>,
}

impl Model for EarCables {
    ghost use Rattle.circ_ears.specs.EarLists.{EarNumbers};

    ghost Value = { EarNumbers };

    ghost view = { λ e. record { path = e.path.items; back = e.back.items } };
}

impl EarCables {
    // The cables of a path with its return walk.
    fn of(alloc: Global, ear: &PathBack) -> Result<EarCables, AllocError>
        ensures { IfOk result (λ e. e ≡ numbers_of ear.now) }
    {
        let rest = joined(alloc, ear.path(), ear.after())?;
        let walk = joined(alloc, ear.before(), &rest)?;
        let path = cables_on(alloc, ear.path())?;
        let back = cables_on(alloc, &walk)?;
        Ok(EarCables { path, back })
    }
}

/// The paths of a core with their return walks, in the order in which they are taken. Contracts see the list of their
/// cables' numbers.
#[derive(Drop)]
pub struct EarList {
    ears: Vec<EarCables>,
}

impl Model for EarList {
    ghost use Rattle.std.specs.Prelude.{List, ◌<◌, length};
    ghost use Rattle.circ_ears.specs.EarLists.{EarNumbers};

    ghost Value = { List EarNumbers };

    ghost view = { λ l. l.ears.items };

    ghost invariant = { λ l. length l.ears.items < 4294967296 };
}

impl EarList {
    /// No paths. It takes no memory.
    pub(crate) fn new(alloc: Global) -> EarList
        ensures { result ≡ [] }
    {
        EarList {
            ears: Vec::new(alloc),
        }
    }

    /// Adds a path with its return walk.
    pub(crate) fn push(&mut self, alloc: Global, ear: &PathBack) -> Result<(), AllocError>
        requires { length self.old < 4294967295 }
        ensures { OnOk result (self.new ≡ self.old ++ numbers_of ear.now ∷ []) }
    {
        let cables = EarCables::of(alloc, ear)?;
        self.ears.push(cables)?;
        Ok(())
    }

    /// How many paths there are.
    pub fn len(&self) -> u32
        ensures { result ≡ length self.now }
    {
        self.ears.len() as u32
    }

    /// The cables of a path, in the order in which its return walk crosses them.
    pub fn path(&self, i: u32) -> &[u16]
        requires { i < length self.now }
        ensures { IfSome (slice_get self.now i) (λ e. result.now ≡ e.path) }
    {
        &self.ears[i as usize].path
    }

    /// The cables of a path's return walk, in order. That of path 0 is the mapper's own cable alone, which needs no
    /// more to be found.
    pub fn back(&self, i: u32) -> &[u16]
        requires { i < length self.now }
        ensures { IfSome (slice_get self.now i) (λ e. result.now ≡ e.back) }
    {
        &self.ears[i as usize].back
    }
}
