//! The vertex of each class: classes are numbered in the order of their least nodes.

ghost use Rattle.std.specs.Prelude.{◌≡◌, ◌<◌, ◌^◌, length, IfOk};
ghost use Rattle.net_defs.specs.Network.{Apart};
ghost use Rattle.map_quotient.specs.Numbering.{IsNodeOrder, AreVertices};

use replicate_merge::Merged;
use std::alloc::{AllocError, Global};

/// The least node of each vertex, and the vertex of each class.
#[derive(Drop)]
pub(crate) struct Numbering {
    pub(crate) least: Vec<u32>,
    pub(crate) vertices: Vec<Option<u32>>,
}

/// Numbers the classes as their nodes come: a class that hasn't come before has its least node there.
pub(crate) fn numbered(alloc: Global, c: &Merged, order: &[u32]) -> Result<Numbering, AllocError>
    requires few { length c.now.nodes < 2 ^ 32 }
    requires once { Apart c.now.nodes }
    requires order { IsNodeOrder c.now.nodes order.now }
    ensures { IfOk result (λ r. AreVertices c.now r.least.items r.vertices.items) }
{
    let mut vertices = vec![in alloc; None; c.count() as usize]?;
    let mut least = Vec::with_capacity(alloc, c.count() as usize)?;
    for node in order {
        let class = c.class_of(*node).class as usize;
        if vertices[class].is_none() {
            vertices[class] = Some(least.len() as u32);
            least.push(*node)?;
        }
    }
    Ok(Numbering { least, vertices })
}
