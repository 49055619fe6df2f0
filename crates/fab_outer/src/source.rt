//! A source of bytes.

ghost use Rattle.std.specs.Prelude.{◌≤◌, ℕ, List, length, Option, IfOk};
ghost use Rattle.std.specs.Io.KnownBytes.{ReadConsumes};
ghost use Rattle.fab_outer.specs.Fault.{HasCause};

/// A read or a write that failed. The object that it failed on has counted it.
#[derive(Clone, Copy, Debug, PartialEq, Eq)]
pub struct Failed;

/// Bytes that are read in pieces, in order.
pub trait Source {
    /// The bytes that are left, where the source shows them.
    ghost left: { Self → Option (List ℕ) };

    /// How often a read has failed. It never falls.
    ghost faults: { Self → ℕ };

    /// Moves the next bytes to the front of `into`, and answers how many. 0 for a piece that isn't empty means the end.
    fn read_some(&mut self, into: &mut [u8]) -> Result<usize, Failed>
        ensures bound { IfOk result (λ n. n ≤ length into.new) }
        ensures moved { ReadConsumes (left self.old) (left self.new) result into.new }
        ensures cause { HasCause (faults self.old) (faults self.new) result };
}
