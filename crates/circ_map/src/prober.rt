//! What answers the asks of a mapper over circuit links.

ghost use Rattle.std.specs.Prelude.{◌≡◌, ◌<◌, ℕ, length, IfOk};
ghost use Rattle.net_defs.specs.Network.{Network, IsFabric};
ghost use Rattle.circ_defs.specs.Circuit.{circuit_answer};

use net_defs::{Answer, Walk};
use std::alloc::AllocError;

/// Gives circuit answers from one host of one fabric.
pub trait CircProber {
    /// The fabric whose circuit answers it gives.
    ghost fabric: { Self → Network };

    /// The host that asks.
    ghost mapper: { Self → ℕ };

    /// The address of the host that asks.
    fn host(&self) -> u16
        ensures value { result ≡ mapper self.now }
        ensures there { mapper self.now < length (fabric self.now).hosts }
        ensures one_fabric { IsFabric (fabric self.now) };

    /// The circuit answer to a walk.
    fn ask(&mut self, w: &Walk) -> Result<Answer, AllocError>
        ensures told { IfOk result (λ a. a ≡ circuit_answer (fabric self.old) (mapper self.old) w.now) }
        ensures same_fabric { fabric self.new ≡ fabric self.old }
        ensures same_mapper { mapper self.new ≡ mapper self.old };
}
