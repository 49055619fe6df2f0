//! How many tokens of a list have each number, so that none is looked for in the list.

ghost use Rattle.std.specs.Prelude.{◌≡◌, ◌<◌, ◌+◌, ◌-◌, ◌^◌, [], nat_lt, slice_get, slice_index_or, slice_set};
ghost use Rattle.std.specs.Prelude.{option_map, IfOk};
ghost use Rattle.gm_port.specs.Tallies.{AreTallied};

use std::alloc::{AllocError, Global};
use std::marker::Model;

// So few numbers aren't counted.
const FEW: u16 = 8;

/// For each number below a limit how many tokens of a list have it. Others aren't counted.
#[derive(Drop)]
pub(crate) struct Tally {
    counts: Vec<u32>,
}

impl Model for Tally {
    ghost use Rattle.std.specs.Prelude.{ℕ, List};

    ghost Value = { List ℕ };

    ghost view = { λ t. t.counts.items };
}

impl Tally {
    /// The tally of an empty list, of numbers below a limit. Few aren't counted, since a short list is soon searched:
    /// so a port of few tokens takes less memory, and is opened and closed sooner.
    #[tactic(auto, using(crate::proofs::Tallies::tallied_none))]
    pub(crate) fn with_room(alloc: Global, limit: u16) -> Result<Tally, AllocError>
        ensures { IfOk result (λ t. AreTallied t []) }
    {
        let count = if limit > FEW { limit } else { 0 };
        Ok(Tally {
            counts: vec![in alloc; 0; usize::from(count)]?,
        })
    }

    /// Whether a token of the list has a number; none where that isn't counted.
    pub(crate) fn has(&self, number: u16) -> Option<bool>
        ensures { result ≡ option_map (nat_lt 0) (slice_get self.now number) }
    {
        match self.counts.get(usize::from(number)) {
            Some(count) => Some(*count > 0),
            None => None,
        }
    }

    /// A token of a number comes into the list.
    pub(crate) fn add(&mut self, number: u16)
        requires { slice_index_or self.old number 0 < 2 ^ 32 - 1 }
        ensures { self.new ≡ slice_set self.old number (slice_index_or self.old number 0 + 1) }
    {
        let at = usize::from(number);
        if at < self.counts.len() {
            self.counts[at] += 1;
        }
    }

    /// A token of a number leaves the list.
    pub(crate) fn remove(&mut self, number: u16)
        ensures { self.new ≡ slice_set self.old number (slice_index_or self.old number 0 - 1) }
    {
        let at = usize::from(number);
        if at < self.counts.len() {
            self.counts[at] = self.counts[at].saturating_sub(1);
        }
    }
}
