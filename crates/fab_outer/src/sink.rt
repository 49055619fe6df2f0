//! A sink of bytes.

ghost use Rattle.std.specs.Prelude.{◌≡◌, ◌<◌, ◌≤◌, ℕ, List, length, Option, IfOk};
ghost use Rattle.std.specs.Io.KnownBytes.{WriteAppends};
ghost use Rattle.fab_outer.specs.Fault.{HasCause, Rose};

use crate::Failed;

/// What takes bytes, in order.
pub trait Sink {
    /// The bytes that it took, where the sink shows them.
    ghost taken: { Self → Option (List ℕ) };

    /// How often a write has failed or taken nothing. It never falls.
    ghost faults: { Self → ℕ };

    /// Takes bytes from the front of `from`, and answers how many. 0 for a piece that isn't empty is a fault too.
    fn write_some(&mut self, from: &[u8]) -> Result<usize, Failed>
        ensures bound { IfOk result (λ n. n ≤ length from.now) }
        ensures appended { WriteAppends (taken self.old) (taken self.new) result from.now }
        ensures cause { HasCause (faults self.old) (faults self.new) result }
        ensures stalled { result ≡ Ok 0 → 0 < length from.now → Rose (faults self.old) (faults self.new) };
}
