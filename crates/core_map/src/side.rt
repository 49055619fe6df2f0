//! What is left joined to a vertex when a cable is taken away.

ghost use Rattle.std.specs.Prelude.{◌≡◌, ◌<◌, true, false, length, replicate, slice_set, IfOk};
ghost use Rattle.std.specs.List.{AllByRecursion};
ghost use Rattle.map_defs.specs.Core.{side, without};
ghost use Rattle.core_map.specs.Marks.{marks_of, spreads, spread, spreads_by, spread_by, spreads_along, spread_along};

use fabric_map::{FabricMap, MapCable};
use std::alloc::{AllocError, Global};

/// Marks the vertices that are joined to one when a cable is taken away. Marks spread along the other cables until
/// nothing changes.
pub(crate) fn side(alloc: Global, m: &FabricMap, k: usize, v: u32) -> Result<Vec<bool>, AllocError>
    requires cable { k < length m.now.cables }
    requires vertex { v < length m.now.vertices }
    ensures { IfOk result (λ marks. marks.items ≡ marks_of m.now (side m.now k v)) }
{
    let cables = m.cables();
    let mut marks = first_marks(alloc, m, v)?;
    'spread: while spread_around(cables, k, &mut marks) {}
    Ok(marks)
}

// A mark for one vertex alone.
fn first_marks(alloc: Global, m: &FabricMap, v: u32) -> Result<Vec<bool>, AllocError>
    requires { v < length m.now.vertices }
    ensures { IfOk result (λ marks. marks.items ≡ slice_set (replicate (length m.now.vertices) false) v true) }
{
    let mut marks = vec![in alloc; false; m.vertices().len()]?;
    marks[v as usize] = true;
    Ok(marks)
}

// Spreads marks along each cable but one, and says whether a vertex got one.
fn spread_around(cables: &[MapCable], k: usize, marks: &mut [bool]) -> bool
    requires cable { k < length cables.now }
    requires vertices { AllByRecursion (λ c. (c.v < length marks.old) × (c.w < length marks.old)) cables.now }
    ensures value { marks.new ≡ spread_along (without cables.now k) marks.old }
    ensures told { result ≡ spreads_along (without cables.now k) marks.old }
{
    let before = spread_all(&cables[..k], marks);
    let after = spread_all(&cables[k + 1..], marks);
    before || after
}

// Spreads marks along each cable, and says whether a vertex got one.
fn spread_all(cables: &[MapCable], marks: &mut [bool]) -> bool
    requires { AllByRecursion (λ c. (c.v < length marks.old) × (c.w < length marks.old)) cables.now }
    ensures value { marks.new ≡ spread_along cables.now marks.old }
    ensures told { result ≡ spreads_along cables.now marks.old }
{
    let mut spreads = false;
    for c in cables {
        if spread_by(marks, *c) {
            spreads = true;
        }
    }
    spreads
}

// Spreads marks either way along a cable.
fn spread_by(marks: &mut [bool], c: MapCable) -> bool
    requires first { c.v < length marks.old }
    requires second { c.w < length marks.old }
    ensures value { marks.new ≡ spread_by marks.old c }
    ensures told { result ≡ spreads_by marks.old c }
{
    let forth = spread(marks, c.v as usize, c.w as usize);
    let back = spread(marks, c.w as usize, c.v as usize);
    forth || back
}

// Marks the second vertex where the first is marked.
fn spread(marks: &mut [bool], v: usize, w: usize) -> bool
    requires first { v < length marks.old }
    requires second { w < length marks.old }
    ensures value { marks.new ≡ spread marks.old v w }
    ensures told { result ≡ spreads marks.old v w }
{
    let spreads = marks[v] && !marks[w];
    if spreads {
        marks[w] = true;
    }
    spreads
}
