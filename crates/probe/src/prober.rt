//! What answers the asks of a mapper.

ghost use Rattle.std.specs.Prelude.{◌≡◌, ◌<◌, ◌≤◌, ℕ, ℤ, List, length, IfOk, OnOk, OnErr};
ghost use Rattle.net_defs.specs.Network.{Network, IsFabric};
ghost use Rattle.net_defs.specs.Route.{answer};
ghost use Rattle.net_defs.specs.declared.place.Answer.{Answer};
ghost use Rattle.probe.specs.Drowning.{IsTrueOrDrowned};

use net_defs::{Answer, Walk};
use std::alloc::AllocError;

/// Answers where walks from one host end: the truth of one fabric, or Nothing where an ask drowned.
pub trait Prober {
    /// The fabric whose truth it tells.
    ghost fabric: { Self → Network };

    /// The host that asks.
    ghost mapper: { Self → ℕ };

    /// How many asks drowned.
    ghost lost: { Self → ℕ };

    /// What an ask may change.
    ghost State: { Type 0 };

    ghost state: { Self → State };

    /// An ask of this walk with this answer leads from the one state to the other.
    ghost asked: { State → List ℤ → Answer → State → Type 0 };

    /// An ask of this walk that ran out of memory leads from the one state to the other.
    ghost cut: { State → List ℤ → State → Type 0 };

    /// It may be asked.
    ghost ready: { Self → Type 0 };

    /// The address of the host that asks.
    fn host(&self) -> u16
        ensures value { result ≡ mapper self.now }
        ensures there { mapper self.now < length (fabric self.now).hosts }
        ensures one_fabric { IsFabric (fabric self.now) };

    /// How many asks drowned. It never falls, and stays at its last value.
    fn drowned(&self) -> u64
        ensures { result ≡ lost self.now };

    /// Where a walk ends. An answer other than the truth is Nothing, and the count rose.
    fn ask(&mut self, w: &Walk) -> Result<Answer, AllocError>
        requires short { length w.now ≤ 31 }
        requires is_ready { ready self.old }
        ensures truth { IfOk result (λ a. IsTrueOrDrowned (answer (fabric self.old) (mapper self.old) w.now)
            (lost self.old) (lost self.new) a) }
        ensures later { lost self.old ≤ lost self.new }
        ensures same_fabric { fabric self.new ≡ fabric self.old }
        ensures same_mapper { mapper self.new ≡ mapper self.old }
        ensures by_asking { IfOk result (λ a. asked (state self.old) w.now a (state self.new)) }
        ensures by_cutting { OnErr result (cut (state self.old) w.now (state self.new)) }
        ensures stays_ready { OnOk result (ready self.new) };
}
