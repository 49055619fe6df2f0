//! The circuit map.

ghost use Rattle.std.specs.Prelude.{◌≡◌, ◌<◌, ◌≤◌, true, false, length, slice_get, Some, IfOk, IsOk, OnOk};
ghost use Rattle.journal_defs.specs.Tree.{IsJournal, is_asked};
ghost use Rattle.probe.specs.Keeping.{with_entry};
ghost use Rattle.map_defs.specs.Quotient.{IsQuotient};
ghost use Rattle.replicate_merge.specs.Table.{IsTrueOfOne};
ghost use Rattle.circ_map.specs.declared.mapping.CircEnd.{CircEnd};
ghost use Rattle.circ_map.specs.Mapping.{HasInside, IsCoreWhereDeep, IsMappedBy, IsTreeMapped};

use crate::growth::{grow, started};
use crate::inside::without_outside;
use crate::prober::CircProber;
use crate::tree::Tree;
use core_map::mark_core;
use fabric_map::FabricMap;
use map_quotient::merged_quotient;
use probe::{Entry, Journal, JournalPush};
use replicate_merge::Classes;
use std::alloc::{AllocError, Global};

/// How the asking of the whole tree ended.
#[derive(Clone, Copy, Debug, PartialEq, Eq)]
pub enum CircEnd {
    /// Every walk of the tree was asked.
    Whole,
    /// The tree held 65,536 nodes, and one more ask found a host or a switch.
    Nodes,
}

/// A circuit map, how many asks it took, and how they ended. With `Nodes` the map has no vertices.
#[derive(Drop)]
pub struct CircMapped {
    /// The map of the whole tree, without what is outside.
    pub map: FabricMap,
    /// How many walks were asked.
    pub asks: u64,
    /// How the asking ended.
    pub end: CircEnd,
}

/// Asks the whole tree to a depth of so many cables in walk order, and maps it without what is outside.
///
/// Where the depth is at least the most cables in a return walk of a path list, a map that ends `Whole` is the core
/// of the host's part of the fabric, up to each switch's offset. No map over circuit links certifies itself.
pub fn map_circuit<P: CircProber>(
    alloc: Global,
    p: &mut P,
    depth: u8,
) -> Result<CircMapped, AllocError>
    requires shallow { depth ≤ 32 }
    ensures mapped { IfOk result (λ m. IsMappedBy (P.fabric p.old) (P.mapper p.old) depth m.map m.asks m.end) }
    ensures core { IfOk result (λ m. m.end ≡ CircEnd.Whole
        → IsCoreWhereDeep (P.fabric p.old) (P.mapper p.old) depth m.map) }
    ensures same_fabric { P.fabric p.new ≡ P.fabric p.old }
    ensures same_mapper { P.mapper p.new ≡ P.mapper p.old }
{
    let _host = p.host();
    let mut tree = started(alloc, p, depth)?;
    let whole = grow(alloc, p, &mut tree, depth)?;
    mapped(alloc, &tree, whole)
}

// The map of a tree that is whole, and how often was asked; no vertices where it isn't, and then nothing is made of
// what was found, which takes no memory.
fn mapped(alloc: Global, tree: &Tree, whole: bool) -> Result<CircMapped, AllocError>
    requires once { whole ≡ true → IsJournal tree.now.found.items }
    requires true_of_one { whole ≡ true → IsTrueOfOne tree.now.host tree.now.found.items }
    requires few { whole ≡ true → length tree.now.found.items < 4294967295 }
    ensures told { IfOk result (λ m.
        IsTreeMapped tree.now.host tree.now.found.items tree.now.asks whole m.map m.asks m.end) }
    ensures limit { whole ≡ false → IsOk result }
{
    if whole {
        let found = journal_of(alloc, tree.host, &tree.found)?;
        Ok(CircMapped {
            map: inside_of(alloc, &found)?,
            asks: tree.asks,
            end: CircEnd::Whole,
        })
    } else {
        Ok(CircMapped {
            map: FabricMap::new(alloc),
            asks: tree.asks,
            end: CircEnd::Nodes,
        })
    }
}

// The journal of what was found, which has its walks at hand.
fn journal_of(alloc: Global, host: u16, found: &[Entry]) -> Result<Journal, AllocError>
    requires { IsJournal found.now }
    ensures { IfOk result (λ j. j ≡ record { host = host; entries = found.now }) }
{
    let mut journal = Journal::new(alloc, host);
    for at in 0..found.len() {
        let e = copied_at(alloc, found, at)?;
        put(alloc, &mut journal, e)?;
    }
    Ok(journal)
}

// Another entry like the one at a place.
fn copied_at(alloc: Global, found: &[Entry], at: usize) -> Result<Entry, AllocError>
    requires { at < length found.now }
    ensures { IfOk result (λ e. slice_get found.now at ≡ Some e) }
{
    let e = &found[at];
    Ok(Entry {
        walk: e.walk.copied(alloc)?,
        answer: e.answer,
    })
}

// Adds an entry whose walk isn't in the journal.
fn put(alloc: Global, journal: &mut Journal, e: Entry) -> Result<(), AllocError>
    requires { is_asked journal.old.entries e.walk ≡ false }
    ensures { OnOk result (journal.new ≡ with_entry journal.old e) }
{
    match journal.push(alloc, e) {
        Ok(()) => Ok(()),
        Err((_, JournalPush::NoMemory)) => Err(AllocError),
        Err((_, JournalPush::Known)) => unreachable!(),
    }
}

// The map of what was found, without what is outside.
fn inside_of(alloc: Global, found: &Journal) -> Result<FabricMap, AllocError>
    requires true_of_one { IsTrueOfOne found.now.host found.now.entries }
    requires few { length found.now.entries < 4294967295 }
    ensures { IfOk result (λ k. HasInside found.now.host found.now.entries k) }
{
    let mut map = map_of_all(alloc, found)?;
    mark_core(alloc, &mut map)?;
    without_outside(alloc, &map)
}

// The map of all that was found. Its classes end here: a proof goes through all their parts at each exit that they
// live to.
fn map_of_all(alloc: Global, found: &Journal) -> Result<FabricMap, AllocError>
    requires true_of_one { IsTrueOfOne found.now.host found.now.entries }
    requires few { length found.now.entries < 4294967295 }
    ensures { IfOk result (λ m. IsQuotient found.now.host found.now.entries m) }
{
    let classes = Classes::from_journal(alloc, found)?;
    merged_quotient(alloc, found, classes.merged())
}
