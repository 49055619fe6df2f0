//! The next path, by breadth first from a cable that is left.

ghost use Rattle.std.specs.Prelude.{◌≡◌, ◌<◌, ◌++◌, ◌∷◌, [], length, slice_index_or, None, Ok, Some, IfOk};
ghost use Rattle.std.specs.Prelude.{IfSome, OnOk};
ghost use Rattle.circ_defs.specs.Ways.{IsOneOf, IsPath, IsStep, IsTouched};
ghost use Rattle.circ_ears.specs.Search.{is_reached, leads_on, led_on, led_over, led_beside, led_over_all, may_end};
ghost use Rattle.circ_ears.specs.Search.{HasNoPath, HasNoPathBy, HasNoPathOver};
ghost use Rattle.circ_ears.specs.Trails.{end_of};

use crate::step::CableStep;
use crate::touching::{is_one_of, is_touched, may_end};
use crate::trail::{Trail, end_of};
use net_defs::{Cable, Vertex};
use port_graph::Fabric;
use std::alloc::{AllocError, Global};

/// A path that is taken after these cables; none where there is none.
pub(crate) fn next_path(alloc: Global, f: &Fabric, old: &[u16]) -> Result<Option<Trail>, AllocError>
    ensures found { IfOk result (λ o. IfSome o (λ p. IsPath f.now old.now p)) }
    ensures none { result ≡ Ok None → HasNoPath f.now old.now }
{
    for k in 0..f.cables() {
        if let Some(path) = path_over(alloc, f, old, k)? {
            return Ok(Some(path));
        }
    }
    Ok(None)
}

// A path that begins over the cable of a number.
fn path_over(alloc: Global, f: &Fabric, old: &[u16], k: u16) -> Result<Option<Trail>, AllocError>
    requires { k < length f.now.cables }
    ensures found { IfOk result (λ o. IfSome o (λ p. IsPath f.now old.now p)) }
    ensures none { result ≡ Ok None → HasNoPathOver f.now old.now k }
{
    if is_one_of(old, k) {
        return Ok(None);
    }
    let c = f.cable(k);
    match path_by(alloc, f, old, CableStep::new(k, c.a, c.b))? {
        Some(path) => Ok(Some(path)),
        None => path_by(alloc, f, old, CableStep::new(k, c.b, c.a)),
    }
}

// A path that begins with a step.
fn path_by(
    alloc: Global,
    f: &Fabric,
    old: &[u16],
    first: CableStep,
) -> Result<Option<Trail>, AllocError>
    requires step { IsStep f.now first }
    requires new { ¬ IsOneOf first.cable old.now }
    ensures found { IfOk result (λ o. IfSome o (λ p. IsPath f.now old.now p)) }
    ensures none { result ≡ Ok None → HasNoPathBy f.now old.now first }
{
    if is_touched(f, old, first.from()) {
        search(alloc, f, old, first)
    } else {
        Ok(None)
    }
}

// A path that begins with a step from an old cable: the first of the ways from it that leads to where a path may end.
fn search(
    alloc: Global,
    f: &Fabric,
    old: &[u16],
    first: CableStep,
) -> Result<Option<Trail>, AllocError>
    requires step { IsStep f.now first }
    requires new { ¬ IsOneOf first.cable old.now }
    requires begins { IsTouched f.now old.now first.out.v }
    ensures found { IfOk result (λ o. IfSome o (λ p. IsPath f.now old.now p)) }
    ensures none { result ≡ Ok None → HasNoPathBy f.now old.now first }
{
    let _count = f.hosts();
    let mut ways = first_way(alloc, &first)?;
    let mut at = 0;
    while at < ways.len() {
        if stops(f, old, way_at(&ways, at)) {
            return Ok(Some(copied(alloc, way_at(&ways, at))?));
        }
        lead_over_all(alloc, f, first, at, &mut ways)?;
        at += 1;
    }
    Ok(None)
}

// The way of one step.
fn first_way(alloc: Global, first: &CableStep) -> Result<Vec<Trail>, AllocError>
    ensures { IfOk result (λ ways. ways.items ≡ (first.now ∷ []) ∷ []) }
{
    let mut steps = Vec::new(alloc);
    steps.push(*first)?;
    let mut ways = Vec::new(alloc);
    ways.push(Trail::of(steps))?;
    Ok(ways)
}

// The way at a place.
fn way_at(ways: &[Trail], at: usize) -> &Trail
    requires { at < length ways.now }
    ensures { result.now ≡ slice_index_or ways.now at [] }
{
    &ways[at]
}

// Whether a way leads to where a path may end.
fn stops(f: &Fabric, old: &[u16], way: &Trail) -> bool
    ensures { result ≡ may_end f.now old.now (end_of way.now) }
{
    may_end(f, old, end_of(way.steps()))
}

// A way once more.
fn copied(alloc: Global, way: &Trail) -> Result<Trail, AllocError>
    ensures { IfOk result (λ copy. copy ≡ way.now) }
{
    Ok(Trail::of(Vec::from_slice(alloc, way.steps())?))
}

// Leads the way at a place on over each cable but the first step's.
fn lead_over_all(
    alloc: Global,
    f: &Fabric,
    first: CableStep,
    at: usize,
    ways: &mut Vec<Trail>,
) -> Result<(), AllocError>
    requires { at < length ways.old.items }
    ensures { OnOk result (ways.new.items ≡ led_over_all f.now first.cable at (length f.now.cables) ways.old.items) }
{
    for k in 0..f.cables() {
        lead_beside(alloc, f, first, at, k, ways)?;
    }
    Ok(())
}

// Leads the way at a place on over a cable, unless it is the first step's.
fn lead_beside(
    alloc: Global,
    f: &Fabric,
    first: CableStep,
    at: usize,
    k: u16,
    ways: &mut Vec<Trail>,
) -> Result<(), AllocError>
    requires cable { k < length f.now.cables }
    requires there { at < length ways.old.items }
    ensures led { OnOk result (ways.new.items ≡ led_beside f.now first.cable at k ways.old.items) }
    ensures there { OnOk result (at < length ways.new.items) }
{
    if k == first.cable() {
        return Ok(());
    }
    lead_over(alloc, at, k, f.cable(k), ways)
}

// Leads the way at a place on over a cable, either way.
fn lead_over(
    alloc: Global,
    at: usize,
    k: u16,
    c: Cable,
    ways: &mut Vec<Trail>,
) -> Result<(), AllocError>
    requires { at < length ways.old.items }
    ensures led { OnOk result (ways.new.items ≡ led_over at k (Some c) ways.old.items) }
    ensures there { OnOk result (at < length ways.new.items) }
{
    lead_on(alloc, at, CableStep::new(k, c.a, c.b), ways)?;
    lead_on(alloc, at, CableStep::new(k, c.b, c.a), ways)
}

// Leads the way at a place on over a step, if it leads on to a vertex that is new.
fn lead_on(alloc: Global, at: usize, s: CableStep, ways: &mut Vec<Trail>) -> Result<(), AllocError>
    requires { at < length ways.old.items }
    ensures led { OnOk result (ways.new.items ≡ led_on at s ways.old.items) }
    ensures there { OnOk result (at < length ways.new.items) }
{
    if leads_on(ways, way_at(ways, at), s) {
        let steps = pushed(alloc, way_at(ways, at), s)?;
        ways.push(Trail::of(steps))?;
    }
    Ok(())
}

// Whether a way leads over a step to a vertex to which none of these ways leads.
fn leads_on(ways: &[Trail], way: &Trail, s: CableStep) -> bool
    ensures { result ≡ leads_on ways.now way.now s }
{
    end_of(way.steps()) == s.from() && !is_reached(ways, s.to())
}

// A way with a step more.
fn pushed(alloc: Global, way: &Trail, s: CableStep) -> Result<Vec<CableStep>, AllocError>
    ensures { IfOk result (λ steps. steps.items ≡ way.now ++ s ∷ []) }
{
    let mut steps = Vec::from_slice(alloc, way.steps())?;
    steps.push(s)?;
    Ok(steps)
}

// Whether one of these ways leads to a vertex.
fn is_reached(ways: &[Trail], v: Vertex) -> bool
    ensures { result ≡ is_reached ways.now v }
{
    ways.iter().any(|w| end_of(w.steps()) == v)
}
