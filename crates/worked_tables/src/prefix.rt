//! The journal of the entries so far.

ghost use Rattle.std.specs.Prelude.{◌≡◌, false, OnOk, IfOk};
ghost use Rattle.journal_defs.specs.Tree.{is_asked};
ghost use Rattle.probe.specs.Keeping.{with_entry};

use probe::{Entry, Journal, JournalPush};
use std::alloc::{AllocError, Global};

/// Adds an entry like another, whose walk isn't in the journal.
pub(crate) fn put(alloc: Global, journal: &mut Journal, e: &Entry) -> Result<(), AllocError>
    requires { is_asked journal.old.entries e.now.walk ≡ false }
    ensures { OnOk result (journal.new ≡ with_entry journal.old e.now) }
{
    let copy = copied(alloc, e)?;
    match journal.push(alloc, copy) {
        Ok(()) => Ok(()),
        Err((_, JournalPush::NoMemory)) => Err(AllocError),
        Err((_, JournalPush::Known)) => unreachable!(),
    }
}

// Another entry like one.
fn copied(alloc: Global, e: &Entry) -> Result<Entry, AllocError>
    ensures { IfOk result (λ copy. copy ≡ e.now) }
{
    Ok(Entry {
        walk: e.walk.copied(alloc)?,
        answer: e.answer,
    })
}
