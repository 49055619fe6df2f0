//! Two walks to any two vertices of the paths: one from the mapper's host, the other to some host.
//!
//! They have no cable in common but the mapper's own, which may be crossed once each way. Two walks to a path's ends,
//! or twice to its start, lead on over the path to any two vertices of it.
//!
//! ```text
//!   host a --->-- start --a--> x ... y --d--> end --->-- host b
//! ```

ghost use Rattle.std.specs.Prelude.{◌≡◌, ◌≤◌, [], length, false, if◌then◌else◌, IfOk, IfSome};
ghost use Rattle.circ_ears.specs.Trails.{back_over};
ghost use Rattle.circ_ears.specs.TwoWays.{along, apart_at_host, between, both, ear_by, ear_of, extended, far_end_of};
ghost use Rattle.circ_ears.specs.TwoWays.{first_before, flipped, over_path, own_two, second_before, two_of};

use crate::step::CableStep;
use crate::trail::{Trail, back_over, begins_at, end_of, ends_at_host, joined, start_of, steps_to};
use net_defs::Vertex;
use std::alloc::{AllocError, Global};
use std::marker::Model;

/// Two walks to two vertices. Swapped, the second vertex is the one to which the first walk leads.
#[derive(Drop)]
pub(crate) struct TwoWalks {
    there: Vec<CableStep>,
    body: Vec<CableStep>,
    tail: Vec<CableStep>,
    swapped: bool,
}

impl Model for TwoWalks {
    ghost use Rattle.circ_ears.specs.TwoWays.{Two};

    ghost Value = { Two };

    ghost view = { λ t. record {
      there = t.there.items;
      body = t.body.items;
      tail = t.tail.items;
      swapped = t.swapped;
    } };
}

/// A path with its return walk: the steps before it, its own, and those after it.
#[derive(Drop)]
pub(crate) struct PathBack {
    before: Vec<CableStep>,
    path: Vec<CableStep>,
    after: Vec<CableStep>,
}

impl Model for PathBack {
    ghost use Rattle.circ_defs.specs.PathList.{Ear};

    ghost Value = { Ear };

    ghost view = { λ e. record { before = e.before.items; path = e.path.items; after = e.after.items } };
}

impl PathBack {
    /// A path that needs no more to be found.
    pub(crate) fn alone(alloc: Global, path: &[CableStep]) -> Result<PathBack, AllocError>
        ensures { IfOk result (λ e. e ≡ record { before = []; path = path.now; after = [] }) }
    {
        Ok(PathBack {
            before: Vec::new(alloc),
            path: Vec::from_slice(alloc, path)?,
            after: Vec::new(alloc),
        })
    }

    /// The steps before the path.
    pub(crate) fn before(&self) -> &[CableStep]
        ensures { result.now ≡ self.now.before }
    {
        &self.before
    }

    /// The path.
    pub(crate) fn path(&self) -> &[CableStep]
        ensures { result.now ≡ self.now.path }
    {
        &self.path
    }

    /// The steps after the path.
    pub(crate) fn after(&self) -> &[CableStep]
        ensures { result.now ≡ self.now.after }
    {
        &self.after
    }
}

/// A path with its return walk over the paths before it, the path taken last in front.
#[tactic(auto, unfolding(crate::specs::TwoWays::ear_of))]
pub(crate) fn ear_of(
    alloc: Global,
    paths: &[Trail],
    path: &[CableStep],
) -> Result<PathBack, AllocError>
    ensures { IfOk result (λ e. e ≡ ear_of paths.now path.now) }
{
    let two = two_walks(alloc, paths, start_of(path), far_end_of(path))?;
    ear_by(alloc, path, &two)
}

// A path with the return walk that two walks give it.
fn ear_by(alloc: Global, path: &[CableStep], two: &TwoWalks) -> Result<PathBack, AllocError>
    ensures { IfOk result (λ e. e ≡ ear_by path.now two.now) }
{
    let before = Vec::from_slice(alloc, &two.there)?;
    if ends_at_host(path) {
        return Ok(PathBack {
            before,
            path: Vec::from_slice(alloc, path)?,
            after: Vec::new(alloc),
        });
    }
    Ok(PathBack {
        before,
        path: turned(alloc, path, two.swapped)?,
        after: joined(alloc, &two.body, &two.tail)?,
    })
}

// Steps, read backwards if they are to be.
fn turned(alloc: Global, steps: &[CableStep], back: bool) -> Result<Vec<CableStep>, AllocError>
    ensures { IfOk result (λ new. new.items ≡ (if back then back_over steps.now else steps.now)) }
{
    if back {
        back_over(alloc, steps)
    } else {
        Vec::from_slice(alloc, steps)
    }
}

// Two walks to two vertices of paths, the path taken last in front.
fn two_walks(alloc: Global, paths: &[Trail], x: Vertex, y: Vertex) -> Result<TwoWalks, AllocError>
    ensures { IfOk result (λ t. t ≡ two_of paths.now x y) }
{
    match paths {
        [] => Ok(no_walks(alloc)),
        [path, old @ ..] => {
            let path = path.steps();
            if old.is_empty() {
                return own_two(alloc, path, x, y);
            }
            let i = steps_to(path, x);
            let j = steps_to(path, y);
            let v = first_before(path, i, j, x);
            let w = second_before(path, i, j, x, y);
            let two = two_walks(alloc, old, v, w)?;
            over_path(alloc, path, i, j, two)
        }
    }
}

// No steps.
fn no_walks(alloc: Global) -> TwoWalks
    ensures { result ≡ record { there = []; body = []; tail = []; swapped = false } }
{
    TwoWalks {
        there: Vec::new(alloc),
        body: Vec::new(alloc),
        tail: Vec::new(alloc),
        swapped: false,
    }
}

// Two walks over the mapper's own cable.
fn own_two(alloc: Global, path: &[CableStep], x: Vertex, y: Vertex) -> Result<TwoWalks, AllocError>
    ensures { IfOk result (λ t. t ≡ own_two path.now x y) }
{
    let mut two = no_walks(alloc);
    if !begins_at(path, x) {
        two.there = Vec::from_slice(alloc, path)?;
    }
    if !begins_at(path, y) {
        two.tail = back_over(alloc, path)?;
    }
    Ok(two)
}

// The first vertex whose walk is asked of the paths before a path.
fn first_before(path: &[CableStep], i: Option<usize>, j: Option<usize>, x: Vertex) -> Vertex
    ensures { result ≡ first_before path.now i j x }
{
    match (i, j) {
        (None, None) => x,
        _ => start_of(path),
    }
}

// The second vertex whose walk is asked of the paths before a path.
fn second_before(
    path: &[CableStep],
    i: Option<usize>,
    j: Option<usize>,
    x: Vertex,
    y: Vertex,
) -> Vertex
    ensures { result ≡ second_before path.now i j x y }
{
    match (i, j) {
        (_, None) => y,
        (None, Some(_)) => x,
        (Some(_), Some(_)) => far_end_of(path),
    }
}

// The vertex to which a path's second walk is to lead: where it ends, or where it begins if its end is a host.
fn far_end_of(path: &[CableStep]) -> Vertex
    ensures { result ≡ far_end_of path.now }
{
    if ends_at_host(path) {
        start_of(path)
    } else {
        end_of(path)
    }
}

// Two walks to vertices at these places of a path, or of the paths before it, from two walks there.
fn over_path(
    alloc: Global,
    path: &[CableStep],
    i: Option<usize>,
    j: Option<usize>,
    two: TwoWalks,
) -> Result<TwoWalks, AllocError>
    requires first { IfSome i (λ k. k ≤ length path.now) }
    requires second { IfSome j (λ k. k ≤ length path.now) }
    ensures { IfOk result (λ t. t ≡ over_path path.now i j two) }
{
    match (i, j) {
        (None, None) => Ok(two),
        (Some(i), None) => both(alloc, &path[..i], &[], two),
        (None, Some(j)) => Ok(flipped(both(alloc, &path[..j], &[], two)?)),
        (Some(i), Some(j)) => between(alloc, path, i, j, two),
    }
}

// The same walks, of the vertices in the other order.
fn flipped(mut two: TwoWalks) -> TwoWalks
    ensures { result ≡ flipped two }
{
    two.swapped = !two.swapped;
    two
}

// Two walks to two vertices of a path.
fn between(
    alloc: Global,
    path: &[CableStep],
    i: usize,
    j: usize,
    two: TwoWalks,
) -> Result<TwoWalks, AllocError>
    requires first { i ≤ length path.now }
    requires second { j ≤ length path.now }
    ensures { IfOk result (λ t. t ≡ between path.now i j two) }
{
    if i <= j {
        along(alloc, path, i, j, two)
    } else {
        Ok(flipped(along(alloc, path, j, i, two)?))
    }
}

// Two walks to two vertices of a path, the first before the second.
fn along(
    alloc: Global,
    path: &[CableStep],
    i: usize,
    j: usize,
    two: TwoWalks,
) -> Result<TwoWalks, AllocError>
    requires first { i ≤ length path.now }
    requires second { j ≤ length path.now }
    ensures { IfOk result (λ t. t ≡ along path.now i j two) }
{
    if ends_at_host(path) {
        apart_at_host(alloc, &path[..i], &path[j..], two)
    } else {
        both(alloc, &path[..i], &path[j..], two)
    }
}

// Steps lead on from the first vertex, and others to a host.
fn apart_at_host(
    alloc: Global,
    a: &[CableStep],
    b: &[CableStep],
    mut two: TwoWalks,
) -> Result<TwoWalks, AllocError>
    ensures { IfOk result (λ t. t ≡ apart_at_host a.now b.now two) }
{
    two.there.extend_from_slice(a)?;
    two.body = Vec::from_slice(alloc, b)?;
    two.tail = Vec::new(alloc);
    two.swapped = false;
    Ok(two)
}

// Steps lead on from the first vertex, and others lead to the second.
fn both(
    alloc: Global,
    a: &[CableStep],
    b: &[CableStep],
    two: TwoWalks,
) -> Result<TwoWalks, AllocError>
    ensures { IfOk result (λ t. t ≡ both a.now b.now two) }
{
    if two.swapped {
        let first = back_over(alloc, b)?;
        let second = back_over(alloc, a)?;
        extended(alloc, &first, &second, two)
    } else {
        extended(alloc, a, b, two)
    }
}

// The first walk goes on over steps, and the second comes over others first.
fn extended(
    alloc: Global,
    a: &[CableStep],
    b: &[CableStep],
    mut two: TwoWalks,
) -> Result<TwoWalks, AllocError>
    ensures { IfOk result (λ t. t ≡ extended a.now b.now two) }
{
    two.there.extend_from_slice(a)?;
    two.body = joined(alloc, b, &two.body)?;
    Ok(two)
}
