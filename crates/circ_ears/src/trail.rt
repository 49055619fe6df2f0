//! Steps of a way: where they begin, end and pass a vertex.

ghost use Rattle.std.specs.Prelude.{◌≡◌, ◌<◌, ◌≤◌, ◌++◌, length, map, IfOk, IfSome, OnOk};
ghost use Rattle.net_defs.specs.declared.vertex.Vertex.{Vertex};
ghost use Rattle.std.specs.List.{position};
ghost use Rattle.net_defs.specs.Network.{same_vertex};
ghost use Rattle.circ_defs.specs.Ways.{cables_on};
ghost use Rattle.circ_ears.specs.Trails.{back_over, begins_at, crossed_back, end_from, end_of, ends_at_host};
ghost use Rattle.circ_ears.specs.Trails.{start_of, steps_to};

use crate::step::CableStep;
use net_defs::Vertex;
use std::alloc::{AllocError, Global};
use std::marker::Model;

/// Steps that lead from a vertex to a vertex.
#[derive(Drop)]
pub(crate) struct Trail {
    steps: Vec<CableStep>,
}

impl Model for Trail {
    ghost use Rattle.std.specs.Prelude.{List};
    ghost use Rattle.circ_defs.specs.Ways.{Step};

    ghost Value = { List Step };

    ghost view = { λ t. t.steps.items };
}

impl Trail {
    /// These steps.
    pub(crate) fn of(steps: Vec<CableStep>) -> Trail
        ensures { result ≡ steps.items }
    {
        Trail { steps }
    }

    /// The steps.
    pub(crate) fn steps(&self) -> &[CableStep]
        ensures { result.now ≡ self.now }
    {
        &self.steps
    }
}

/// Steps, and others after them.
pub(crate) fn joined(
    alloc: Global,
    a: &[CableStep],
    b: &[CableStep],
) -> Result<Vec<CableStep>, AllocError>
    ensures { IfOk result (λ both. both.items ≡ a.now ++ b.now) }
{
    let mut both = Vec::from_slice(alloc, a)?;
    both.extend_from_slice(b)?;
    Ok(both)
}

/// Numbers, and others after them.
pub(crate) fn joined_numbers(alloc: Global, a: &[u16], b: &[u16]) -> Result<Vec<u16>, AllocError>
    ensures { IfOk result (λ both. both.items ≡ a.now ++ b.now) }
{
    let mut both = Vec::from_slice(alloc, a)?;
    both.extend_from_slice(b)?;
    Ok(both)
}

/// Steps, read backwards.
pub(crate) fn back_over(alloc: Global, steps: &[CableStep]) -> Result<Vec<CableStep>, AllocError>
    ensures { IfOk result (λ back. back.items ≡ back_over steps.now) }
{
    let mut back = Vec::with_capacity(alloc, steps.len())?;
    push_crossed_back(&mut back, steps)?;
    back.reverse();
    Ok(back)
}

// Adds steps in the other direction after others.
fn push_crossed_back(back: &mut Vec<CableStep>, steps: &[CableStep]) -> Result<(), AllocError>
    ensures { OnOk result (back.new.items ≡ back.old.items ++ map crossed_back steps.now) }
{
    for s in steps {
        back.push(s.crossed_back())?;
    }
    Ok(())
}

/// The cables that steps cross, in order.
pub(crate) fn cables_on(alloc: Global, steps: &[CableStep]) -> Result<Vec<u16>, AllocError>
    ensures { IfOk result (λ cables. cables.items ≡ cables_on steps.now) }
{
    let mut cables = Vec::with_capacity(alloc, steps.len())?;
    for s in steps {
        cables.push(s.cable())?;
    }
    Ok(cables)
}

/// The vertex that steps leave first.
pub(crate) fn start_of(steps: &[CableStep]) -> Vertex
    ensures { result ≡ start_of steps.now }
{
    match steps {
        [] => Vertex::Host(0),
        [first, ..] => first.from(),
    }
}

/// The vertex that steps lead to.
pub(crate) fn end_of(steps: &[CableStep]) -> Vertex
    ensures { result ≡ end_of steps.now }
{
    end_from(Vertex::Host(0), steps)
}

// The vertex that steps from a vertex lead to.
fn end_from(v: Vertex, steps: &[CableStep]) -> Vertex
    ensures { result ≡ end_from v steps.now }
{
    match steps {
        [] => v,
        [first, rest @ ..] => end_from(first.to(), rest),
    }
}

/// Whether steps lead to a host.
pub(crate) fn ends_at_host(steps: &[CableStep]) -> bool
    ensures { result ≡ ends_at_host steps.now }
{
    match end_of(steps) {
        Vertex::Host(_) => true,
        Vertex::Switch(_) => false,
    }
}

/// Whether steps begin at a vertex.
pub(crate) fn begins_at(steps: &[CableStep], v: Vertex) -> bool
    ensures { result ≡ begins_at steps.now v }
{
    match steps {
        [] => false,
        [first, ..] => first.from() == v,
    }
}

/// How many of these steps lead to a vertex that they pass.
pub(crate) fn steps_to(steps: &[CableStep], v: Vertex) -> Option<usize>
    ensures value { result ≡ steps_to steps.now v }
    ensures few { IfSome result (λ k. k ≤ length steps.now) }
{
    if begins_at(steps, v) {
        return Some(0);
    }
    match first_into(steps, v) {
        Some(at) => Some(at + 1),
        None => None,
    }
}

// The place of the first step into a vertex.
fn first_into(steps: &[CableStep], v: Vertex) -> Option<usize>
    ensures value { result ≡ position (λ s. same_vertex s.into.v v) steps.now }
    ensures within { IfSome result (λ k. k < length steps.now) }
{
    steps.iter().position(|s| s.to() == v)
}
