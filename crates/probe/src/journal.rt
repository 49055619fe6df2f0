//! What a mapper asked, with the answers, in order.

ghost use Rattle.std.specs.Prelude.{◌≡◌, [], true, false, if◌then◌else◌, map, OnOk, OnErr, IfErr};
ghost use Rattle.journal_defs.specs.Tree.{IsJournal, is_asked};
ghost use Rattle.probe.specs.Keeping.{has_walk, with_entry};
ghost use Rattle.probe.specs.declared.journal.JournalPush.TheVariants.{Known, NoMemory};
ghost use Rattle.probe.specs.Pushing.{PushesWhere};

use crate::chains::{Chains, add, find, found_among, hash_of, index, make_room, no_chains};
use crate::walk_list::WalkList;
use journal_defs::Entry;
use std::alloc::{AllocError, Global};
use std::marker::Model;

/// Why a journal doesn't take an entry.
#[derive(Clone, Copy, Debug, PartialEq, Eq)]
pub enum JournalPush {
    /// The walk stands in the journal.
    Known,
    /// Memory ran out for a walk that isn't in it.
    NoMemory,
}

/// The asks of one host with their answers, in the order of the asks, no walk twice. Contracts see the host and the
/// list of entries.
///
/// The first [`Journal::push`] makes an index, by which a walk is found by a hash of its turns. A journal that grows by
/// [`Journal::push_new`] alone has none.
#[derive(Drop)]
pub struct Journal {
    host: u16,
    entries: Vec<Entry>,
    chains: Chains,
}

impl Model for Journal {
    ghost use Rattle.probe.specs.Keeping.{JournalState, IsIndexed};

    ghost Value = { JournalState };

    ghost view = { λ j. record { host = j.host; entries = j.entries.items } };

    ghost invariant = { λ j. IsIndexed j.entries.items j.chains.latest.items j.chains.before.items };
}

impl Journal {
    /// The journal of a host before its first ask. It takes no memory.
    pub fn new(alloc: Global, host: u16) -> Journal
        ensures { result ≡ record { host = host; entries = [] } }
    {
        Journal {
            host,
            entries: Vec::new(alloc),
            chains: no_chains(alloc),
        }
    }

    /// The host that asks.
    pub fn host(&self) -> u16
        ensures { result ≡ self.now.host }
    {
        self.host
    }

    /// The entries, in the order of the asks.
    pub fn entries(&self) -> &[Entry]
        ensures list { result.now ≡ self.now.entries }
        ensures once { IsJournal self.now.entries }
    {
        &self.entries
    }

    /// Adds an entry at the end whose walk is known not to stand in the journal. It isn't looked for.
    pub fn push_new(&mut self, alloc: Global, e: Entry) -> Result<(), AllocError>
        requires { is_asked self.old.entries e.walk ≡ false }
        ensures ok { OnOk result (self.new ≡ with_entry self.old e) }
        ensures err { OnErr result (self.new ≡ self.old) }
    {
        self.entries.reserve(1)?;
        let chained = self.chains.before.len();
        if chained == 0 {
            self.entries.push_reserved(e);
            return Ok(());
        }
        let hash = hash_of(e.walk.turns());
        make_room(&self.entries, &mut self.chains)?;
        self.entries.push_reserved(e);
        add(&mut self.chains, hash);
        Ok(())
    }

    /// Adds an entry at the end. A refused entry is handed back, and the journal is as before.
    pub fn push(&mut self, alloc: Global, e: Entry) -> Result<(), (Entry, JournalPush)>
        ensures pushed { OnOk result (self.new ≡ with_entry self.old e) }
        ensures refused { PushesWhere (is_asked self.old.entries e.walk) result }
        ensures handed_back { IfErr result (λ refused. refused.0 ≡ e) }
        ensures unchanged { OnErr result (self.new ≡ self.old) }
    {
        if index(&self.entries, &mut self.chains).is_err() {
            let refusal = refusal_without_index(&self.entries, e.walk.turns());
            return Err((e, refusal));
        }
        let hash = hash_of(e.walk.turns());
        if find(&self.entries, &self.chains, e.walk.turns(), hash).is_some() {
            return Err((e, JournalPush::Known));
        }
        if self.entries.reserve(1).is_err() {
            return Err((e, JournalPush::NoMemory));
        }
        match make_room(&self.entries, &mut self.chains) {
            Ok(()) => {
                self.entries.push_reserved(e);
                add(&mut self.chains, hash);
                Ok(())
            }
            Err(_) => Err((e, JournalPush::NoMemory)),
        }
    }
}

// Why a walk is refused where there is no memory for an index.
fn refusal_without_index(entries: &Vec<Entry>, turns: &[i8]) -> JournalPush
    ensures { result ≡ (if has_walk (map (λ e. e.walk) entries.now.items) turns.now then Known else NoMemory) }
{
    if found_among(entries, turns).is_some() {
        JournalPush::Known
    } else {
        JournalPush::NoMemory
    }
}

impl WalkList for Vec<Entry> {
    ghost list = { λ entries. map (λ e. e.walk) entries.items };

    fn count(&self) -> usize {
        self.len()
    }

    fn turns_at(&self, at: usize) -> &[i8] {
        self[at].walk.turns()
    }
}
