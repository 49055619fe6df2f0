//! The map of one host with its core marked, its words, and the number of its asks.

ghost use Rattle.std.specs.Prelude.{◌≡◌, ◌≤◌, ◌↔◌, ℕ, List, [], IfOk, OnOk, OnErr};
ghost use Rattle.journal_defs.specs.declared.entry.Entry.{Entry};
ghost use Rattle.journal_defs.specs.Depth.{IsSmallEnough, enough_depth};
ghost use Rattle.map_defs.specs.Core.{core_of};
ghost use Rattle.map_defs.specs.Sameness.{IsMapOfPart};
ghost use Rattle.fabric_map.specs.Growing.{with_core};
ghost use Rattle.mapper.specs.Ends.{IsEnd};
ghost use Rattle.mapper.specs.Growths.{StopsShort};
ghost use Rattle.map_canon.specs.Printing.{AreOfFabric};
ghost use Rattle.run_defs.specs.Mapped.{IsCalled};
ghost use Rattle.map_making.specs.Made.{IsMade};

use core_map::mark_core;
use fabric_map::FabricMap;
use mapper::{MapEnd, map_within};
use probe::Prober;
use run_defs::MapWords;
use std::alloc::{AllocError, Global};

/// A map with its core marked, what it may be called, and how many asks it took.
#[derive(Drop)]
pub struct MadeMap {
    /// The map of what was found, with its core marked; without vertices where the tree had too many nodes.
    pub map: FabricMap,
    /// How far it is known to be right, as a report says it.
    pub words: MapWords,
    /// How many walks were asked.
    pub asks: u64,
}

/// Maps from the prober's host to a depth of so many cables, marks the core, and says what the map may be called.
///
/// A map that is called complete is the host's part of the fabric, the ports of each switch counted from elsewhere.
/// None is made of a tree of too many nodes. While no ask drowns, a depth of Q + D + 1 makes it complete, where the
/// fabric is small enough. The prober's count of drowned asks begins at 0, since each ask that drowns makes the map
/// doubtful. Where it runs out of memory, the map is lost, and the prober was asked a part of its asks, or all.
pub fn make_map<P: Prober>(alloc: Global, p: &mut P, depth: u8) -> Result<MadeMap, AllocError>
    requires some { 1 ≤ depth }
    requires shallow { depth ≤ 32 }
    requires is_ready { P.ready p.old }
    requires fresh { P.lost p.old ≡ 0 }
    ensures made { IfOk result (λ m. IsMade P.State P.asked (P.mapper p.old) depth (P.state p.old) (P.lost p.new) m
        (P.state p.new)) }
    ensures certificate { IfOk result (λ m. m.words ≡ MapWords.Complete
        → IsMapOfPart (P.fabric p.old) (P.mapper p.old) m.map) }
    ensures depth { IfOk result (λ m. P.lost p.new ≡ 0 → enough_depth (P.fabric p.old) (P.mapper p.old) ≤ depth
        → IsSmallEnough (P.fabric p.old) (P.mapper p.old) → m.words ≡ MapWords.Complete) }
    ensures of_fabric { IfOk result (λ m. AreOfFabric (P.fabric p.old) m.map) }
    ensures stopped { OnErr result (StopsShort P.State P.asked P.cut (P.mapper p.old) depth [] (P.state p.old)
        (P.state p.new)) }
    ensures same_fabric { P.fabric p.new ≡ P.fabric p.old }
    ensures same_mapper { P.mapper p.new ≡ P.mapper p.old }
    ensures stays_ready { OnOk result (P.ready p.new) }
{
    let _host = p.host();
    let mapped = map_within(alloc, p, depth)?;
    let words = words_of(mapped.end, p.drowned());
    let asks = mapped.journal.entries().len() as u64;
    let map = marked(alloc, mapped.map)?;
    Ok(MadeMap { map, words, asks })
}

// The map with its core marked.
fn marked(alloc: Global, mut m: FabricMap) -> Result<FabricMap, AllocError>
    ensures { IfOk result (λ marked. marked ≡ with_core m (core_of m)) }
{
    mark_core(alloc, &mut m)?;
    Ok(m)
}

// What a map may be called whose growth ended so, while so many asks drowned.
fn words_of(end: MapEnd, drowned: u64) -> MapWords
    ensures called { (host : ℕ) (j : List Entry) → IsEnd host j end → IsCalled host j drowned result }
    ensures complete { result ≡ MapWords.Complete ↔ (end ≡ MapEnd.Closed) × (drowned ≡ 0) }
{
    match end {
        MapEnd::OpenAtNodes => MapWords::IncompleteNodes,
        MapEnd::OpenAtDepth => MapWords::IncompleteDepth,
        MapEnd::Closed if drowned > 0 => MapWords::Doubtful(drowned),
        MapEnd::Closed => MapWords::Complete,
    }
}
