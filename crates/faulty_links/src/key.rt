//! The key of a planned fault.

ghost use Rattle.std.specs.Prelude.{◌≡◌, ◌*◌, ◌+◌, Some, nat_eq};
ghost use Rattle.std.proofs.Common.{rules};
ghost use Rattle.std.specs.Cmp.{partial_order_from_own_ties};
ghost use Rattle.std.specs.Cmp.Rules.{comparing};
ghost use Rattle.std.specs.Ordering.{nat_cmp, as_partial_cmp};

use std::cmp::Ordering;
use std::marker::Model;

// One more than the greatest number of a word.
const WORD: u128 = 18_446_744_073_709_551_616;

/// The number of an injection, in two words. Most keys have the same upper word, so a comparison is one of words; one
/// of 128 bits takes twice as long, and a search through many faults hardly does anything else.
#[derive(Drop)]
pub(crate) struct Key {
    upper: u64,
    lower: u64,
}

impl Model for Key {
    ghost use Rattle.std.specs.Prelude.{ℕ, ◌*◌, ◌+◌, ◌<◌};

    ghost Value = { ℕ };

    ghost view = { λ k. k.upper * 18446744073709551616 + k.lower };

    // A comparison that doesn't read this word knows its range by this.
    ghost invariant = { λ k. k.lower < 18446744073709551616 };
}

impl Key {
    /// The key of a number.
    pub(crate) fn of(number: u128) -> Key
        ensures { result ≡ number }
    {
        Key {
            upper: (number / WORD) as u64,
            lower: (number % WORD) as u64,
        }
    }

    /// The key of a number of one word.
    pub(crate) fn of_word(number: u64) -> Key
        ensures { result ≡ number }
    {
        Key {
            upper: 0,
            lower: number,
        }
    }
}

impl PartialEq for Key {
    ghost eq = { nat_eq };

    ghost laws = { Prim.search (comparing, rules) };

    #[tactic(auto, using(crate::proofs::Keys::same_lower, crate::proofs::Keys::unlike_upper))]
    fn eq(&self, other: &Key) -> bool {
        self.upper == other.upper && self.lower == other.lower
    }
}

impl Eq for Key {
    ghost laws = { Prim.search (comparing, rules) };
}

impl PartialOrd for Key {
    ghost partial_cmp = { as_partial_cmp nat_cmp };

    ghost laws = { partial_order_from_own_ties (Prim.search (comparing, rules)) (Prim.search (comparing, rules)) };

    fn partial_cmp(&self, other: &Key) -> Option<Ordering> {
        Some(self.cmp(other))
    }
}

impl Ord for Key {
    ghost cmp = { nat_cmp };

    ghost total = { Prim.search (comparing, rules) };

    ghost matches_partial_cmp = { Prim.search (comparing, rules) };

    ghost matches_eq = { Prim.search (comparing, rules) };

    #[tactic(auto, using(crate::proofs::Keys::same_upper, crate::proofs::Keys::other_upper))]
    fn cmp(&self, other: &Key) -> Ordering {
        if self.upper == other.upper {
            order(self.lower, other.lower)
        } else {
            order(self.upper, other.upper)
        }
    }
}

// The order of two words. That the first is greater is tested first, since a search passes most keys by that.
#[inline(always)]
#[tactic(auto, using(crate::proofs::Keys::greater, crate::proofs::Keys::same, crate::proofs::Keys::less))]
fn order(x: u64, y: u64) -> Ordering
    ensures { result ≡ nat_cmp x y }
{
    if x > y {
        Ordering::Greater
    } else if x == y {
        Ordering::Equal
    } else {
        Ordering::Less
    }
}
