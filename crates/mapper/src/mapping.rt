//! The map of a journal that has grown, and how its growth ended.

ghost use Rattle.std.specs.Prelude.{◌≡◌, ◌≤◌, ◌<◌, ◌↔◌, [], length, true, false, IsTrue, IfOk, OnOk, OnErr};
ghost use Rattle.journal_defs.specs.Growth.{IsEndedAtLimit};
ghost use Rattle.map_defs.specs.Quotient.{IsQuotient};
ghost use Rattle.replicate_merge.specs.Table.{StandsFor, IsTrueOfOne};
ghost use Rattle.fabric_map.specs.Growing.{empty_map};
ghost use Rattle.replicate_merge.specs.Merged.{AreClassesOf, without_tables};
ghost use Rattle.mapper.specs.Ends.{IsEnd};
ghost use Rattle.mapper.specs.Growths.{StopsShort};
ghost use Rattle.mapper.specs.Maps.{MapsBy, IsMapWithin, IsMapIf};

use crate::growth::{Grown, grow};
use map_quotient::{FabricMap, closed, merged_quotient};
use probe::{Journal, Prober};
use replicate_merge::Merged;
use std::alloc::{AllocError, Global};

/// How the growth of a journal ended.
#[derive(Clone, Copy, Debug, PartialEq, Eq)]
pub enum MapEnd {
    /// Each class of switches has an expanded member: a map whose asks all had true answers is whole.
    Closed,
    /// A class of switches lies at the depth, and wasn't expanded.
    OpenAtDepth,
    /// The last answer made one node more than a journal keeps.
    OpenAtNodes,
}

/// A journal that has grown to its depth, its map, and how the growth ended.
#[derive(Drop)]
pub struct Mapped {
    /// The map of the journal, its core not marked yet.
    pub map: FabricMap,
    /// The asks with their answers, in order.
    pub journal: Journal,
    /// Why nothing more was asked.
    pub end: MapEnd,
}

/// Maps from the prober's host to a depth of so many cables: the journal that `grow` gives, and the map of that
/// journal.
///
/// A map that ends `Closed` while no ask drowned is the host's part of the fabric, the ports of each switch counted
/// from elsewhere. While no ask drowns, a depth of Q + D + 1 makes it end so, where the fabric is small enough. Where
/// it runs out of memory, journal and map are lost, and the prober was asked a part of the journal's asks.
pub fn map<P: Prober>(alloc: Global, p: &mut P, depth: u8) -> Result<Mapped, AllocError>
    requires some { 1 ≤ depth }
    requires shallow { depth ≤ 32 }
    requires is_ready { P.ready p.old }
    ensures maps { IfOk result (λ m. MapsBy P.State P.asked (P.fabric p.old) (P.mapper p.old) depth (P.state p.old)
        (P.lost p.old) m (P.state p.new) (P.lost p.new)) }
    ensures quotient { IfOk result (λ m. IsQuotient (P.mapper p.old) m.journal.entries m.map) }
    ensures stopped { OnErr result (StopsShort P.State P.asked P.cut (P.mapper p.old) depth [] (P.state p.old)
        (P.state p.new)) }
    ensures later { P.lost p.old ≤ P.lost p.new }
    ensures same_fabric { P.fabric p.new ≡ P.fabric p.old }
    ensures same_mapper { P.mapper p.new ≡ P.mapper p.old }
    ensures stays_ready { OnOk result (P.ready p.new) }
{
    mapped_if(alloc, p, depth, true)
}

/// Maps so too, but makes no map of a journal that ended at the limit of nodes: it is left without vertices.
pub fn map_within<P: Prober>(alloc: Global, p: &mut P, depth: u8) -> Result<Mapped, AllocError>
    requires some { 1 ≤ depth }
    requires shallow { depth ≤ 32 }
    requires is_ready { P.ready p.old }
    ensures maps { IfOk result (λ m. MapsBy P.State P.asked (P.fabric p.old) (P.mapper p.old) depth (P.state p.old)
        (P.lost p.old) m (P.state p.new) (P.lost p.new)) }
    ensures within { IfOk result (λ m. IsMapWithin (P.mapper p.old) m.journal.entries m.map) }
    ensures stopped { OnErr result (StopsShort P.State P.asked P.cut (P.mapper p.old) depth [] (P.state p.old)
        (P.state p.new)) }
    ensures later { P.lost p.old ≤ P.lost p.new }
    ensures same_fabric { P.fabric p.new ≡ P.fabric p.old }
    ensures same_mapper { P.mapper p.new ≡ P.mapper p.old }
    ensures stays_ready { OnOk result (P.ready p.new) }
{
    mapped_if(alloc, p, depth, false)
}

// The journal of a growth with its end, and with its map: always, or unless the growth ended at the limit of nodes.
fn mapped_if<P: Prober>(
    alloc: Global,
    p: &mut P,
    depth: u8,
    always: bool,
) -> Result<Mapped, AllocError>
    requires shallow { depth ≤ 32 }
    requires is_ready { P.ready p.old }
    ensures maps { IfOk result (λ m. MapsBy P.State P.asked (P.fabric p.old) (P.mapper p.old) depth (P.state p.old)
        (P.lost p.old) m (P.state p.new) (P.lost p.new)) }
    ensures made { IfOk result (λ m. IsMapIf always (P.mapper p.old) m.journal.entries m.map) }
    ensures stopped { OnErr result (StopsShort P.State P.asked P.cut (P.mapper p.old) depth [] (P.state p.old)
        (P.state p.new)) }
    ensures later { P.lost p.old ≤ P.lost p.new }
    ensures same_fabric { P.fabric p.new ≡ P.fabric p.old }
    ensures same_mapper { P.mapper p.new ≡ P.mapper p.old }
    ensures stays_ready { OnOk result (P.ready p.new) }
{
    let _host = p.host();
    let grown = grow(alloc, p, depth)?;
    let mapped = with_map(alloc, grown, always)?;
    Ok(mapped)
}

// A journal that has grown, with its end, and with its map where that is made.
fn with_map(alloc: Global, grown: Grown, always: bool) -> Result<Mapped, AllocError>
    requires stands { StandsFor grown.journal.host grown.journal.entries grown.classes }
    requires true_of_one { IsTrueOfOne grown.journal.host grown.journal.entries }
    requires few { length grown.journal.entries < 4294967295 }
    requires at_limit { IsTrue grown.at_limit ↔ IsEndedAtLimit grown.journal.entries }
    ensures journal { IfOk result (λ m. m.journal ≡ grown.journal) }
    ensures made { IfOk result (λ m. IsMapIf always grown.journal.host grown.journal.entries m.map) }
    ensures end { IfOk result (λ m. IsEnd grown.journal.host grown.journal.entries m.end) }
{
    let end = end_of(&grown);
    let made = always || !grown.at_limit;
    let (journal, classes) = parted(grown);
    let map = map_if(alloc, made, &journal, classes)?;
    Ok(Mapped { map, journal, end })
}

// The map of a journal, or the map without vertices.
fn map_if(
    alloc: Global,
    made: bool,
    journal: &Journal,
    classes: Merged,
) -> Result<FabricMap, AllocError>
    requires classes { AreClassesOf journal.now.host journal.now.entries classes }
    requires true_of_one { IsTrueOfOne journal.now.host journal.now.entries }
    requires few { length journal.now.entries < 4294967295 }
    ensures made { IfOk result (λ m. made ≡ true → IsQuotient journal.now.host journal.now.entries m) }
    ensures none { IfOk result (λ m. made ≡ false → m ≡ empty_map) }
{
    if made {
        let map = merged_quotient(alloc, journal, classes)?;
        Ok(map)
    } else {
        Ok(FabricMap::new(alloc))
    }
}

// The journal of a growth, and what its map is made of. All by which the classes go on ends here, so it doesn't stand
// beside the map.
fn parted(grown: Grown) -> (Journal, Merged)
    ensures journal { result.0 ≡ grown.journal }
    ensures classes { result.1 ≡ without_tables grown.classes }
{
    let Grown {
        journal,
        classes,
        at_limit: _,
    } = grown;
    (journal, classes.merged())
}

// How a growth ended.
fn end_of(grown: &Grown) -> MapEnd
    requires at_limit { IsTrue grown.now.at_limit ↔ IsEndedAtLimit grown.now.journal.entries }
    requires stands { StandsFor grown.now.journal.host grown.now.journal.entries grown.now.classes }
    ensures { IsEnd grown.now.journal.host grown.now.journal.entries result }
{
    if grown.at_limit {
        MapEnd::OpenAtNodes
    } else if closed(&grown.journal, &grown.classes) {
        MapEnd::Closed
    } else {
        MapEnd::OpenAtDepth
    }
}
