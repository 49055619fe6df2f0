//! Places: the order of the vertices by level, then by number.

ghost use Rattle.std.specs.Prelude.{◌≡◌, ◌<◌, ◌≤◌, ◌^◌, length, map, IfOk};
ghost use Rattle.map_defs.specs.Orientation.{places_by};
ghost use Rattle.updown.specs.Sorted.{levelled, AreByLevel};

use std::alloc::{AllocError, Global};

/// The place of each vertex: where it stands among all that are sorted by level, then by number.
pub(crate) fn places(alloc: Global, levels: &[u32]) -> Result<Vec<u32>, AllocError>
    requires { length levels.now < 2 ^ 32 }
    ensures { IfOk result (λ order. order.items ≡ places_by levels.now) }
{
    let vertices = by_level(alloc, levels)?;
    places_in(alloc, levels, &vertices)
}

// All vertices with their levels, sorted.
fn by_level(alloc: Global, levels: &[u32]) -> Result<Vec<(u32, u32)>, AllocError>
    requires { length levels.now < 2 ^ 32 }
    ensures { IfOk result (λ vertices. AreByLevel levels.now vertices.items) }
{
    let mut vertices = levelled(alloc, levels)?;
    vertices.sort_unstable();
    Ok(vertices)
}

// Each vertex with its level.
fn levelled(alloc: Global, levels: &[u32]) -> Result<Vec<(u32, u32)>, AllocError>
    requires { length levels.now < 2 ^ 32 }
    ensures { IfOk result (λ vertices. vertices.items ≡ levelled levels.now) }
{
    let mut vertices = Vec::with_capacity(alloc, levels.len())?;
    for v in 0..levels.len() {
        vertices.push((levels[v], v as u32))?;
    }
    Ok(vertices)
}

// Where each vertex stands.
fn places_in(alloc: Global, levels: &[u32], vertices: &[(u32, u32)]) -> Result<Vec<u32>, AllocError>
    requires few { length levels.now < 2 ^ 32 }
    requires sorted { AreByLevel levels.now vertices.now }
    ensures { IfOk result (λ order. order.items ≡ places_by levels.now) }
{
    let mut order = vec![in alloc; 0; levels.len()]?;
    for place in 0..vertices.len() {
        order[vertices[place].1 as usize] = place as u32;
    }
    Ok(order)
}
