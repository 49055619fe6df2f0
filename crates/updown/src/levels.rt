//! Levels: the distance of each vertex from the root.

ghost use Rattle.std.specs.Prelude.{◌≡◌, ◌<◌, length, replicate, slice_set, IfOk};
ghost use Rattle.std.specs.List.{AllByRecursion};
ghost use Rattle.map_defs.specs.NetMap.{IsConnected};
ghost use Rattle.map_defs.specs.Orientation.{root, levels};
ghost use Rattle.updown.specs.Lowering.{lowered, lowers, lowered_by, lowers_by, lowered_along, lowers_along};

use fabric_map::{FabricMap, MapCable, MapVertex};
use std::alloc::{AllocError, Global};

/// The level of each vertex. Levels are lowered along the cables, over and over, until nothing changes: as often as
/// the greatest level at most, and once more.
pub(crate) fn levels(alloc: Global, m: &FabricMap) -> Result<Vec<u32>, AllocError>
    requires { IsConnected m.now }
    ensures { IfOk result (λ ls. ls.items ≡ levels m.now) }
{
    let cables = m.cables();
    let mut levels = first_levels(alloc, m)?;
    'lower: while lower_all(cables, &mut levels) {}
    Ok(levels)
}

// Level 0 for the root, and one that is high enough for each other vertex.
fn first_levels(alloc: Global, m: &FabricMap) -> Result<Vec<u32>, AllocError>
    ensures { IfOk result (λ ls. ls.items ≡ slice_set (replicate (length m.now.vertices) (length m.now.vertices))
        (root m.now) 0) }
{
    let count = m.vertices().len();
    let mut levels = vec![in alloc; count as u32; count]?;
    let root = root(m);
    if root < count {
        levels[root] = 0;
    }
    Ok(levels)
}

// The root.
fn root(m: &FabricMap) -> usize
    ensures { result ≡ root m.now }
{
    match m.vertices().get(1) {
        Some(MapVertex::Switch(_)) => 1,
        _ => 0,
    }
}

// Lowers levels along each cable, and says whether one was lowered.
fn lower_all(cables: &[MapCable], levels: &mut [u32]) -> bool
    requires { AllByRecursion (λ c. (c.v < length levels.old) × (c.w < length levels.old)) cables.now }
    ensures value { levels.new ≡ lowered_along cables.now levels.old }
    ensures told { result ≡ lowers_along cables.now levels.old }
{
    let mut lowers = false;
    for c in cables {
        if lower_by(levels, *c) {
            lowers = true;
        }
    }
    lowers
}

// Lowers the level of either end of a cable.
fn lower_by(levels: &mut [u32], c: MapCable) -> bool
    requires first { c.v < length levels.old }
    requires second { c.w < length levels.old }
    ensures value { levels.new ≡ lowered_by levels.old c }
    ensures told { result ≡ lowers_by levels.old c }
{
    let forth = lower(levels, c.v as usize, c.w as usize);
    let back = lower(levels, c.w as usize, c.v as usize);
    forth || back
}

// Lowers the level of the second vertex, where it is more than one above the first.
fn lower(levels: &mut [u32], v: usize, w: usize) -> bool
    requires first { v < length levels.old }
    requires second { w < length levels.old }
    ensures value { levels.new ≡ lowered levels.old v w }
    ensures told { result ≡ lowers levels.old v w }
{
    let level = u64::from(levels[v]) + 1;
    if level < u64::from(levels[w]) {
        levels[w] = level as u32;
        true
    } else {
        false
    }
}
