//! What is outside: what hangs by a cable that cuts it off, and cables without any host.

ghost use Rattle.std.specs.Prelude.{◌≡◌, ◌<◌, ◌+◌, length, ◌||◌, slice_index_or, slice_set, false, IfOk};
ghost use Rattle.core_map.specs.Marks.{outside_of};
ghost use Rattle.core_map.specs.Walking.{IsWalked, cut_in, parent_in};
ghost use Rattle.core_map.specs.Hanging.{AreUnwalked, AreHanging, with_unmet};

use crate::bridges::{cable_at, no_marks};
use crate::walk::{Walk, walk_all};
use fabric_map::FabricMap;
use std::alloc::{AllocError, Global};

/// For each vertex, whether some cable between two switches cuts it off from all hosts.
pub(crate) fn outside(alloc: Global, m: &FabricMap) -> Result<Vec<bool>, AllocError>
    ensures { IfOk result (λ outside. outside.items ≡ outside_of m.now) }
{
    let walk = walk_all(alloc, m)?;
    let mut marks = unwalked(alloc, m, &walk)?;
    mark_walked(m, &walk, &mut marks);
    Ok(marks)
}

// Marks what was met and is cut off: what was entered before first.
fn mark_walked(m: &FabricMap, walk: &Walk, marks: &mut Vec<bool>)
    requires walk { IsWalked m.now walk.now }
    requires before { AreUnwalked m.now walk.now (length m.now.cables) marks.old.items }
    ensures { marks.new.items ≡ outside_of m.now }
{
    for j in 0..walk.order().len() {
        mark_hanging(m, walk, j, marks);
    }
}

// Marks the ends of cables that no path joins to a host.
fn unwalked(alloc: Global, m: &FabricMap, walk: &Walk) -> Result<Vec<bool>, AllocError>
    requires { IsWalked m.now walk.now }
    ensures { IfOk result (λ marks. AreUnwalked m.now walk.now (length m.now.cables) marks.items) }
{
    let mut marks = no_marks(alloc, m)?;
    for i in 0..m.cables().len() {
        mark_unwalked_ends(m, walk, i, &mut marks);
    }
    Ok(marks)
}

// Marks the ends of a cable that weren't met.
fn mark_unwalked_ends(m: &FabricMap, walk: &Walk, i: usize, marks: &mut Vec<bool>)
    requires cable { i < length m.now.cables }
    requires walk { IsWalked m.now walk.now }
    requires before { AreUnwalked m.now walk.now i marks.old.items }
    ensures { AreUnwalked m.now walk.now (i + 1) marks.new.items }
{
    let c = cable_at(m, i);
    mark_unmet(walk, c.v, marks);
    mark_unmet(walk, c.w, marks);
}

// Marks a vertex that wasn't met.
fn mark_unmet(walk: &Walk, v: u32, marks: &mut Vec<bool>)
    requires { v < length marks.old.items }
    ensures { marks.new.items ≡ with_unmet walk.now marks.old.items v }
{
    if walk.number(v) == 0 {
        marks[v as usize] = true;
    }
}

// Marks a vertex that its entry cable cuts off, or that was entered from a marked one.
fn mark_hanging(m: &FabricMap, walk: &Walk, j: usize, marks: &mut Vec<bool>)
    requires there { j < length walk.now.order }
    requires walk { IsWalked m.now walk.now }
    requires before { AreHanging m.now walk.now j marks.old.items }
    ensures { AreHanging m.now walk.now (j + 1) marks.new.items }
{
    let v = walk.vertex(j);
    let hangs = hangs(walk, v, marks);
    put_mark(marks, v, hangs);
}

// Whether its entry cable cuts a vertex off, or that from which it was entered is marked.
fn hangs(walk: &Walk, v: u32, marks: &Vec<bool>) -> bool
    ensures { result ≡ (cut_in walk.now v || slice_index_or marks.now.items (parent_in walk.now v) false) }
{
    walk.is_cut(v as usize) || is_marked(marks, walk.parent(v as usize) as usize)
}

// Marks a vertex, or takes its mark away.
fn put_mark(marks: &mut Vec<bool>, v: u32, mark: bool)
    requires { v < length marks.old.items }
    ensures { marks.new.items ≡ slice_set marks.old.items v mark }
{
    marks[v as usize] = mark;
}

// Whether a vertex is marked.
fn is_marked(marks: &[bool], v: usize) -> bool
    ensures { result ≡ slice_index_or marks.now v false }
{
    match marks.get(v) {
        Some(is_marked) => *is_marked,
        None => false,
    }
}
