//! The planned faults.

ghost use Rattle.std.specs.Prelude.{◌≡◌, ◌<◌, ◌^◌, [], length, nat_eq, OnOk, OnErr};
ghost use Rattle.std.specs.Map.{lookup};
ghost use Rattle.world_defs.specs.World.{with_fault, without_fault};
ghost use Rattle.faulty_links.specs.Held.{pull_end};

use crate::key::Key;
use net_defs::End;
use std::alloc::{AllocError, Global};
use std::collections::BTreeMap;
use std::marker::Model;
use world_defs::Fault;

/// Faults by the number of the injection that they are for, one for each at most.
#[derive(Drop)]
pub(crate) struct Plan {
    faults: BTreeMap<Key, Fault>,
}

impl Model for Plan {
    ghost use Rattle.std.specs.Prelude.{List, ℕ};
    ghost use Rattle.world_defs.specs.declared.fault.Fault.{Fault};

    ghost Value = { List (ℕ × Fault) };

    ghost view = { λ p. p.faults.entries };
}

impl Plan {
    pub(crate) fn new(alloc: Global) -> Plan
        ensures { result ≡ [] }
    {
        Plan {
            faults: BTreeMap::new(alloc),
        }
    }

    /// How many there are: as many as fit into memory.
    pub(crate) fn count(&self) -> u64
        ensures count { result ≡ length self.now }
        ensures few { result < 2 ^ 63 }
    {
        self.faults.len() as u64
    }

    /// The fault for an injection. Most worlds have none planned, where nothing is searched.
    #[tactic(auto, using(crate::proofs::Keys::none_planned))]
    pub(crate) fn at(&self, number: u64) -> Option<Fault>
        ensures { result ≡ lookup (nat_eq number) self.now }
    {
        if self.faults.is_empty() {
            return None;
        }
        self.faults.get(&Key::of_word(number)).copied()
    }

    /// The port of the pull that is planned for an injection; none where another fault is planned, or no fault.
    #[tactic(auto, using(crate::proofs::Keys::none_planned))]
    pub(crate) fn pull_at(&self, number: u128) -> Option<End>
        ensures { result ≡ pull_end (lookup (nat_eq number) self.now) }
    {
        if self.faults.is_empty() {
            return None;
        }
        pull_end(self.faults.get(&Key::of(number)).copied())
    }

    /// Plans a fault for an injection, in the place of an earlier one.
    pub(crate) fn put(&mut self, number: u128, fault: Fault) -> Result<(), AllocError>
        ensures ok { OnOk result (self.new ≡ with_fault number fault self.old) }
        ensures err { OnErr result (self.new ≡ self.old) }
    {
        match self.faults.insert(Key::of(number), fault) {
            Ok(_) => Ok(()),
            Err(_) => Err(AllocError),
        }
    }

    /// Plans no fault for an injection any more.
    #[tactic(auto, using(crate::proofs::Keys::nothing_removed))]
    pub(crate) fn remove(&mut self, number: u64)
        ensures { self.new ≡ without_fault number self.old }
    {
        if self.faults.is_empty() {
            return;
        }
        let _ = self.faults.remove(&Key::of_word(number));
    }
}

// The port at which a fault pulls a cable.
const fn pull_end(fault: Option<Fault>) -> Option<End>
    ensures { result ≡ pull_end fault }
{
    match fault {
        Some(Fault::Pull { at }) => Some(at),
        _ => None,
    }
}
