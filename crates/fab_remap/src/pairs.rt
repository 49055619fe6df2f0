//! Pairs of hosts.

ghost use Rattle.std.specs.Prelude.{◌≡◌};

use std::marker::Model;

/// Pairs of hosts by their addresses, each a sender with its receiver. Contracts see the list of them.
#[derive(Debug, Drop)]
pub struct PairList {
    pairs: Vec<(u16, u16)>,
}

impl Model for PairList {
    ghost use Rattle.std.specs.Prelude.{ℕ, List};

    ghost Value = { List (ℕ × ℕ) };

    ghost view = { λ l. l.pairs.items };
}

impl PairList {
    /// These pairs.
    pub(crate) fn new(pairs: Vec<(u16, u16)>) -> PairList
        ensures { result ≡ pairs.items }
    {
        PairList { pairs }
    }

    /// The pairs in their order.
    pub fn list(&self) -> &[(u16, u16)]
        ensures { result.now ≡ self.now }
    {
        &self.pairs
    }
}
