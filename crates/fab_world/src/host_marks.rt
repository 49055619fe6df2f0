//! Which hosts are looked at.

ghost use Rattle.std.specs.Prelude.{◌≡◌, ◌+◌, ◌/◌, true, false, length, IfOk};
ghost use Rattle.fab_world.specs.Resting.{HasPlace, IsMarked, leaves_host};

use crate::hosts::leaves_host;
use client_host::Arrival;
use number_marks::Marks;
use std::alloc::{AllocError, Global};

/// The hosts that may not be at rest, and those that may not be silent.
#[derive(Drop)]
pub(crate) struct HostMarks {
    /// A host without this mark is at rest.
    pub(crate) awake: Marks,
    /// A host without this mark has nothing staged and nothing to send.
    pub(crate) busy: Marks,
}

impl HostMarks {
    /// Room for the marks of so many hosts.
    pub(crate) fn new(alloc: Global, hosts: u16) -> Result<HostMarks, AllocError>
        ensures awake { IfOk result (λ m. length m.awake ≡ hosts / 64 + 1) }
        ensures busy { IfOk result (λ m. length m.busy ≡ hosts / 64 + 1) }
    {
        let awake = Marks::new(alloc, usize::from(hosts))?;
        let busy = Marks::new(alloc, usize::from(hosts))?;
        Ok(HostMarks { awake, busy })
    }

    /// A host has changed, so it is looked at.
    pub(crate) fn mark(&mut self, at: usize)
        requires { HasPlace self.old at }
        ensures { IsMarked self.old self.new at }
    {
        self.awake.mark(at);
        self.busy.mark(at);
    }

    /// A host has heard a packet, so it is looked at if that may have changed it.
    pub(crate) fn mark_heard(&mut self, at: usize, arrival: Arrival)
        requires { HasPlace self.old at }
        ensures stays { leaves_host arrival ≡ true → self.new ≡ self.old }
        ensures marked { leaves_host arrival ≡ false → IsMarked self.old self.new at }
    {
        if !leaves_host(arrival) {
            self.mark(at);
        }
    }
}
