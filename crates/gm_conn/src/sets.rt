//! Sets of a host's lanes: those that owe an acknowledgement, those with a fragment due, and those on which something
//! isn't acknowledged. A host with nothing to do is seen by a look at the least of each.

ghost use Rattle.std.specs.Prelude.{◌≡◌, ◌<◌, ◌≤◌, ◌^◌, ℕ, length, IfOk, IfSome, IfNone};
ghost use Rattle.number_marks.specs.Marks.{IsNextMark, mark_at};
ghost use Rattle.gm_conn.specs.Sets.{HasRoom, IsNoted, AreBare};

use crate::Lane;
use number_marks::Marks;
use std::alloc::{AllocError, Global};
use std::marker::Model;

/// The sets, by the lanes' numbers.
#[derive(Drop)]
pub(crate) struct LaneSets {
    owing: Marks,
    due: Marks,
    unacked: Marks,
}

impl Model for LaneSets {
    ghost use Rattle.gm_conn.specs.Sets.{Sets, AreFew};

    ghost Value = { Sets };

    ghost view = { λ s. record { owing = s.owing; due = s.due; unacked = s.unacked } };

    ghost invariant = { λ s. AreFew s.owing s.due s.unacked };
}

impl LaneSets {
    /// No lane is in any of them, and there is room for so many.
    pub(crate) fn new(alloc: Global, count: u32) -> Result<LaneSets, AllocError>
        requires { count < 2 ^ 17 }
        ensures { IfOk result (λ s. AreBare s count) }
    {
        let count = count as usize;
        Ok(LaneSets {
            owing: Marks::new(alloc, count)?,
            due: Marks::new(alloc, count)?,
            unacked: Marks::new(alloc, count)?,
        })
    }

    /// Notes how a lane stands.
    pub(crate) fn note(&mut self, lane: u32, l: &Lane)
        requires { HasRoom self.old lane }
        ensures { IsNoted self.old self.new lane l.now }
    {
        l.in_order();
        let number = lane as usize;
        self.owing.write(number, l.owes());
        self.due.write(number, l.is_due());
        self.unacked.write(number, l.unacked() > 0);
    }

    /// The least lane from one on that owes an acknowledgement.
    pub(crate) fn next_owing(&self, from: u32) -> Option<u32>
        ensures next { IfSome result (IsNextMark self.now.owing from) }
        ensures none { IfNone result ((k : ℕ) → from ≤ k → mark_at self.now.owing k ≡ 0) }
    {
        next_lane(&self.owing, from)
    }

    /// The least lane from one on with a fragment due.
    pub(crate) fn next_due(&self, from: u32) -> Option<u32>
        ensures next { IfSome result (IsNextMark self.now.due from) }
        ensures none { IfNone result ((k : ℕ) → from ≤ k → mark_at self.now.due k ≡ 0) }
    {
        next_lane(&self.due, from)
    }

    /// The least lane from one on with something unacknowledged.
    pub(crate) fn next_unacked(&self, from: u32) -> Option<u32>
        ensures next { IfSome result (IsNextMark self.now.unacked from) }
        ensures none { IfNone result ((k : ℕ) → from ≤ k → mark_at self.now.unacked k ≡ 0) }
    {
        next_lane(&self.unacked, from)
    }
}

// The least marked lane from one on.
fn next_lane(marks: &Marks, from: u32) -> Option<u32>
    requires { length marks.now ≤ 2 ^ 12 }
    ensures next { IfSome result (IsNextMark marks.now from) }
    ensures none { IfNone result ((k : ℕ) → from ≤ k → mark_at marks.now k ≡ 0) }
{
    match marks.next(from as usize) {
        Some(lane) => Some(lane as u32),
        None => None,
    }
}
