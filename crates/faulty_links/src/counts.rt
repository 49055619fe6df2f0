//! The counts of a world's links.

ghost use Rattle.std.specs.Prelude.{◌≡◌, ◌<◌, ◌≤◌, ◌+◌};
ghost use Rattle.world_defs.specs.World.{last_count, counted};
ghost use Rattle.faulty_links.specs.Held.{behind_fault};

use std::marker::Model;

/// How many injections there were, how many packets were dropped, and how many planned faults struck and harmed.
#[derive(Drop)]
pub(crate) struct Counts {
    injected: u64,
    dropped: u64,
    struck: u64,
    harmed: u64,
}

impl Model for Counts {
    ghost use Rattle.std.specs.Prelude.{◌≤◌};
    ghost use Rattle.faulty_links.specs.Held.{CountState};

    ghost Value = { CountState };

    ghost view = { λ c. record { injected = c.injected; dropped = c.dropped; struck = c.struck; harmed = c.harmed } };

    ghost invariant = { λ c. (c.struck ≤ c.injected) × (c.harmed ≤ c.struck) };
}

impl Counts {
    pub(crate) fn new() -> Counts
        ensures { result ≡ record { injected = 0; dropped = 0; struck = 0; harmed = 0 } }
    {
        Counts {
            injected: 0,
            dropped: 0,
            struck: 0,
            harmed: 0,
        }
    }

    pub(crate) fn injected(&self) -> u64
        ensures { result ≡ self.now.injected }
    {
        self.injected
    }

    pub(crate) fn dropped(&self) -> u64
        ensures { result ≡ self.now.dropped }
    {
        self.dropped
    }

    pub(crate) fn struck(&self) -> u64
        ensures count { result ≡ self.now.struck }
        ensures most { result ≤ self.now.injected }
    {
        self.struck
    }

    pub(crate) fn harmed(&self) -> u64
        ensures count { result ≡ self.now.harmed }
        ensures most { result ≤ self.now.struck }
    {
        self.harmed
    }

    /// One injection more.
    pub(crate) fn inject(&mut self)
        requires { self.old.injected < last_count }
        ensures { self.new ≡ record self.old { injected = self.old.injected + 1 } }
    {
        self.injected += 1;
    }

    /// One injection more, for which a fault was planned: it counts where it struck, and as harm where it is one.
    pub(crate) fn inject_under(&mut self, strikes: bool, is_harm: bool)
        requires { self.old.injected < last_count }
        ensures { self.new ≡ behind_fault self.old strikes is_harm }
    {
        self.injected += 1;
        if strikes {
            self.struck += 1;
            if is_harm {
                self.harmed += 1;
            }
        }
    }

    /// One packet more was dropped; the count stays at its last value.
    pub(crate) fn drop_one(&mut self)
        ensures { self.new ≡ record self.old { dropped = counted self.old.dropped } }
    {
        self.dropped = self.dropped.saturating_add(1);
    }
}
