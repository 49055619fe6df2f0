//! A list of ranks.

ghost use Rattle.std.specs.Prelude.{◌≡◌, true, Some, None, option_map, slice_get};
ghost use Rattle.map_defs.specs.NetMap.{MapPort};
ghost use Rattle.map_defs.specs.Ranks.{rank_of};
ghost use Rattle.rank_cert.specs.Listing.{rise_after, comes_after, port_of, rank_at};

use crate::crossings::{Crossing, crossings};
use fabric_map::FabricMap;
use map_defs::RankEntry;
use std::marker::Model;

/// Ranks of channels. Of two entries for one channel the first counts. Contracts see the list of entries.
#[derive(Debug, Drop)]
pub struct Ranks {
    entries: Vec<RankEntry>,
    // The channels of the map that they were made for; none of any other entries. Whoever uses them looks whether they
    // are a map's.
    crossings: Vec<Option<Crossing>>,
    // Whether the entries rise by vertex and port, so that one is found by halves.
    rising: bool,
}

impl Model for Ranks {
    ghost use Rattle.std.specs.Prelude.{List};
    ghost use Rattle.map_defs.specs.declared.rank.RankEntry.{RankEntry};
    ghost use Rattle.std.specs.Prelude.{◌≡◌, None};
    ghost use Rattle.rank_cert.specs.Listing.{rise_after};

    ghost Value = { List RankEntry };

    ghost view = { λ k. k.entries.items };

    ghost invariant = { λ k. k.rising ≡ rise_after None k.entries.items };
}

impl Ranks {
    /// The ranks of any entries.
    pub fn new(v: Vec<RankEntry>) -> Ranks
        ensures { result ≡ v.items }
    {
        let rising = are_rising(&v);
        let crossings = Vec::new(*v.allocator());
        Ranks {
            entries: v,
            crossings,
            rising,
        }
    }

    /// The same ranks with the channels of a map beside them, so that `check` finds each by one look. Without them
    /// where there is no room, and where the map has more vertices than there are ranks: then a table takes longer than
    /// it saves.
    pub fn over(self, m: &FabricMap) -> Ranks
        ensures { result ≡ self }
    {
        if self.entries.len() < m.vertices().len() {
            return self;
        }
        match crossings(*self.entries.allocator(), m, &self) {
            Ok(table) => self.with_crossings(table),
            Err(_) => self,
        }
    }

    // The same ranks with the channels of a map.
    fn with_crossings(self, crossings: Vec<Option<Crossing>>) -> Ranks
        ensures { result ≡ self }
    {
        let Ranks {
            entries,
            crossings: _,
            rising,
        } = self;
        Ranks {
            entries,
            crossings,
            rising,
        }
    }

    /// The channels of the map that they were made for, if they were made for one.
    pub(crate) fn crossings(&self) -> &[Option<Crossing>] {
        &self.crossings
    }

    /// The entries.
    pub fn list(&self) -> &[RankEntry]
        ensures { result.now ≡ self.now }
    {
        &self.entries
    }

    /// The rank of a channel: found by halves where the entries rise by vertex and port, as those of `certify` do, and
    /// one by one where they don't.
    pub(crate) fn rank_of(&self, v: u32, p: i8) -> Option<u64>
        ensures { result ≡ rank_of self.now record { v = v; p = p } }
    {
        if self.rising {
            found_by_halves(&self.entries, v, p)
        } else {
            found_one_by_one(&self.entries, v, p)
        }
    }
}

// Whether the entries rise by vertex and port.
fn are_rising(entries: &[RankEntry]) -> bool
    ensures { result ≡ rise_after None entries.now }
{
    let mut before: Option<RankEntry> = None;
    for entry in entries {
        if !comes_after(before, *entry) {
            return false;
        }
        before = Some(*entry);
    }
    true
}

// Whether an entry's port comes after that of the one before.
fn comes_after(before: Option<RankEntry>, entry: RankEntry) -> bool
    ensures { result ≡ comes_after (option_map port_of before) (port_of entry) }
{
    match before {
        None => true,
        Some(b) => b.v < entry.v || (b.v == entry.v && b.p < entry.p),
    }
}

// The rank of the first entry of a channel.
fn found_one_by_one(entries: &[RankEntry], v: u32, p: i8) -> Option<u64>
    ensures { result ≡ rank_of entries.now record { v = v; p = p } }
{
    for entry in entries {
        if entry.v == v && entry.p == p {
            return Some(entry.rank);
        }
    }
    None
}

// The same of entries that rise.
fn found_by_halves(entries: &[RankEntry], v: u32, p: i8) -> Option<u64>
    requires { rise_after None entries.now ≡ true }
    ensures { result ≡ rank_of entries.now record { v = v; p = p } }
{
    match entries.get(place_of(entries, v, p)) {
        Some(k) => rank_if(*k, v, p),
        None => None,
    }
}

// The place of the first entry whose port doesn't come before a port.
fn place_of(entries: &[RankEntry], v: u32, p: i8) -> usize
    requires { rise_after None entries.now ≡ true }
    ensures { rank_of entries.now record { v = v; p = p }
        ≡ rank_at (slice_get entries.now result) record { v = v; p = p } }
{
    entries.partition_point(|k| k.v < v || (k.v == v && k.p < p))
}

// The rank of an entry, if it is the port's.
fn rank_if(k: RankEntry, v: u32, p: i8) -> Option<u64>
    ensures { result ≡ rank_at (Some k) record { v = v; p = p } }
{
    if k.v == v && k.p == p {
        Some(k.rank)
    } else {
        None
    }
}
