//! What classes say of the nodes of a journal.

ghost use Rattle.std.specs.Prelude.{◌<◌, length};

use crate::plain::Pair;
use net_defs::Walk;
use port_align::ClassFrame;
use probe::Entry;
use replicate_merge::Classes;
use std::alloc::{AllocError, Global};

/// A node as classes say of it.
#[derive(Clone, Copy)]
pub(crate) struct ClassedNode {
    frame: ClassFrame,
    /// Its class has an expanded member.
    pub(crate) expanded: bool,
}

// What classes say of a node.
fn seen(classes: &Classes, node: u32) -> ClassedNode
    requires { node < length classes.now.nodes }
{
    let frame = classes.class_of(node);
    let expanded = classes.expanded(frame.class);
    ClassedNode { frame, expanded }
}

// What they say of the node of a walk; none where the walk found nothing.
#[tactic(auto, using(std::proofs::lemmas::Option::slice_get_within))]
fn seen_at(classes: &Classes, walk: &Walk) -> Option<ClassedNode> {
    match classes.node_of(walk) {
        Some(node) => Some(seen(classes, node)),
        None => None,
    }
}

/// What classes say of the mapper's host, and of each walk that found something.
pub(crate) fn nodes_of(
    alloc: Global,
    entries: &[Entry],
    classes: &Classes,
) -> Result<Vec<ClassedNode>, AllocError>
    requires { 0 < length classes.now.nodes }
{
    let mut nodes = vec![in alloc; seen(classes, 0)]?;
    for e in entries {
        if let Some(node) = seen_at(classes, &e.walk) {
            nodes.push(node)?;
        }
    }
    Ok(nodes)
}

// How far apart two nodes lie in their class.
fn apart(u: ClassFrame, v: ClassFrame) -> Option<i16> {
    if u.class == v.class {
        Some(i16::from(u.offset) - i16::from(v.offset))
    } else {
        None
    }
}

/// Each two nodes of one class.
pub(crate) fn joined(alloc: Global, nodes: &[ClassedNode]) -> Result<Vec<Pair>, AllocError> {
    let mut pairs = Vec::new(alloc);
    for (u, m) in nodes.iter().enumerate() {
        for (v, n) in nodes.iter().enumerate() {
            if let Some(k) = apart(m.frame, n.frame) {
                pairs.push((u, v, k))?;
            }
        }
    }
    Ok(pairs)
}
