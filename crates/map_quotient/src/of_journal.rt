//! The map of a journal.

ghost use Rattle.std.specs.Prelude.{◌≡◌, ◌<◌, length, IfOk};
ghost use Rattle.journal_defs.specs.Tree.{nodes};
ghost use Rattle.map_defs.specs.Quotient.{IsQuotient};
ghost use Rattle.replicate_merge.specs.Nodes.{nodes_of};
ghost use Rattle.replicate_merge.specs.Table.{StandsFor, IsTrueOfOne};
ghost use Rattle.map_quotient.specs.InOrder.{in_order};
ghost use Rattle.map_quotient.specs.Numbering.{AreVertices};
ghost use Rattle.replicate_merge.specs.Merged.{AreClassesOf};

use crate::cables::put_in_order;
use crate::joining::join_all;
use crate::naming::named;
use crate::numbering::{Numbering, numbered};
use crate::order::node_order;
use fabric_map::FabricMap;
use probe::{Journal, WalkIndex};
use replicate_merge::{Classes, Merged};
use std::alloc::{AllocError, Global};

/// The map of a journal, whose classes these are: a vertex for each class in the order of their least walks, the
/// mapper's host first, and the cables that the walks show, once each in order. All vertices are of the core. The
/// answers other than Nothing are true of one fabric.
pub fn quotient(alloc: Global, j: &Journal, c: &Classes) -> Result<FabricMap, AllocError>
    requires stands { StandsFor j.now.host j.now.entries c.now }
    requires true_of_one { IsTrueOfOne j.now.host j.now.entries }
    requires few { length j.now.entries < 4294967295 }
    ensures { IfOk result (λ m. IsQuotient j.now.host j.now.entries m) }
{
    let merged = c.to_merged(alloc)?;
    merged_quotient(alloc, j, merged)
}

/// The same map of a journal that grows no more. Its classes end before the cables are put in order.
pub fn merged_quotient(alloc: Global, j: &Journal, c: Merged) -> Result<FabricMap, AllocError>
    requires classes { AreClassesOf j.now.host j.now.entries c }
    requires true_of_one { IsTrueOfOne j.now.host j.now.entries }
    requires few { length j.now.entries < 4294967295 }
    ensures { IfOk result (λ m. IsQuotient j.now.host j.now.entries m) }
{
    let mut map = unordered(alloc, j, c)?;
    put_in_order(alloc, &mut map)?;
    Ok(map)
}

// The map with its cables as the walks show them. The classes end here.
fn unordered(alloc: Global, j: &Journal, c: Merged) -> Result<FabricMap, AllocError>
    requires classes { AreClassesOf j.now.host j.now.entries c }
    requires true_of_one { IsTrueOfOne j.now.host j.now.entries }
    requires few { length j.now.entries < 4294967295 }
    ensures { IfOk result (λ m. IsQuotient j.now.host j.now.entries (in_order m)) }
{
    let numbering = numbering_of(alloc, j, &c)?;
    filled(alloc, j, &c, c.walks(), numbering)
}

// The vertices of the classes. The order of nodes ends here.
fn numbering_of(alloc: Global, j: &Journal, c: &Merged) -> Result<Numbering, AllocError>
    requires classes { AreClassesOf j.now.host j.now.entries c.now }
    requires few { length j.now.entries < 4294967295 }
    ensures { IfOk result (λ r. AreVertices c.now r.least.items r.vertices.items) }
{
    let _once = j.entries();
    let walks = c.walks();
    let order = node_order(alloc, walks)?;
    numbered(alloc, c, &order)
}

// The same from the walks that found something and the vertices of the classes.
fn filled(
    alloc: Global,
    j: &Journal,
    c: &Merged,
    walks: &WalkIndex,
    numbering: Numbering,
) -> Result<FabricMap, AllocError>
    requires classes { AreClassesOf j.now.host j.now.entries c.now }
    requires true_of_one { IsTrueOfOne j.now.host j.now.entries }
    requires few { length j.now.entries < 4294967295 }
    requires walked { nodes_of walks.now ≡ nodes j.now.entries }
    requires numbered { AreVertices c.now numbering.least.items numbering.vertices.items }
    ensures { IfOk result (λ m. IsQuotient j.now.host j.now.entries (in_order m)) }
{
    let _once = j.entries();
    let Numbering { least, vertices } = numbering;
    let mut map = named(alloc, j, walks, least)?;
    join_all(&mut map, walks, c, &vertices)?;
    let _cables = map.cables();
    Ok(map)
}
