//! The order of nodes: the mapper's host, then walks by length, and those of one length turn by turn.

ghost use Rattle.std.specs.Prelude.{◌≡◌, ◌+◌, ◌<◌, ◌^◌, length, IfOk};
ghost use Rattle.std.specs.Ordering.{is_lt};
ghost use Rattle.journal_defs.specs.Tree.{node_below};
ghost use Rattle.journal_defs.specs.Walks.{turns_below, walk_below};
ghost use Rattle.replicate_merge.specs.Nodes.{nodes_of};
ghost use Rattle.replicate_merge.specs.Ways.{node_at};
ghost use Rattle.map_quotient.specs.Numbering.{AreNumbersBelow, IsNodeOrder};

use crate::found::walk_of;
use probe::WalkIndex;
use std::alloc::{AllocError, Global};
use std::cmp::Ordering;

/// All nodes in their order.
pub(crate) fn node_order(alloc: Global, walks: &WalkIndex) -> Result<Vec<u32>, AllocError>
    requires { length walks.now + 1 < 2 ^ 32 }
    ensures { IfOk result (λ order. IsNodeOrder (nodes_of walks.now) order.items) }
{
    let mut order = numbers_below(alloc, walks.len() as u32 + 1)?;
    order.sort_by(|a, b| compared(walks, *a, *b))?;
    Ok(order)
}

// The numbers below one.
fn numbers_below(alloc: Global, count: u32) -> Result<Vec<u32>, AllocError>
    ensures { IfOk result (λ numbers. AreNumbersBelow count numbers.items) }
{
    let mut numbers = Vec::with_capacity(alloc, count as usize)?;
    for n in 0..count {
        numbers.push(n)?;
    }
    Ok(numbers)
}

// How two nodes stand to each other.
fn compared(walks: &WalkIndex, a: u32, b: u32) -> Ordering
    ensures { is_lt result ≡ node_below (node_at (nodes_of walks.now) a) (node_at (nodes_of walks.now) b) }
{
    if is_below(walks, a, b) {
        Ordering::Less
    } else if is_below(walks, b, a) {
        Ordering::Greater
    } else {
        Ordering::Equal
    }
}

// Whether a node stands before another.
fn is_below(walks: &WalkIndex, a: u32, b: u32) -> bool
    ensures { result ≡ node_below (node_at (nodes_of walks.now) a) (node_at (nodes_of walks.now) b) }
{
    match walk_of(walks, b) {
        None => false,
        Some(w) => match walk_of(walks, a) {
            None => true,
            Some(v) => is_walk_below(v, w),
        },
    }
}

// Whether a walk stands before another: by length, then turn by turn.
fn is_walk_below(v: &[i8], w: &[i8]) -> bool
    ensures { result ≡ walk_below v.now w.now }
{
    v.len() < w.len() || (v.len() == w.len() && are_turns_below(v, w))
}

// Whether the first turns that differ are lesser.
fn are_turns_below(v: &[i8], w: &[i8]) -> bool
    ensures { result ≡ turns_below v.now w.now }
{
    match v {
        [] => false,
        [s, v @ ..] => match w {
            [] => false,
            [t, w @ ..] => *s < *t || (*s == *t && are_turns_below(v, w)),
        },
    }
}
