//! One depth-first walk over the cables of a map from its hosts: which vertices their entry cable cuts off.
//!
//! ```text
//!   a -- #0 -- #1 -- #2      #0 is beside a host: it has the number 1. #1, #2 and #3 get 2, 3 and 4. From #3 a cable
//!               | \_ |       leads back to #1, so that its least number is 2, and so is that of #2, which is less than
//!               \__ #3       its own: it isn't cut off. That of #1 is its own number 2: its entry cable cuts it off.
//! ```

ghost use Rattle.std.specs.Prelude.{◌≡◌, ◌≢◌, ◌<◌, ◌≤◌, ◌+◌, ◌∷◌, [], suc, zero, length, IfOk, OnOk, Option, Some};
ghost use Rattle.std.specs.Prelude.{None, IfNone, slice_get};
ghost use Rattle.core_map.specs.Lasting.{IsJoinedBy};
ghost use Rattle.core_map.specs.Walking.{AreLinked, EndsAt, WalkState, number_in, IsWalk, HasGrown, IsFrom, weight};
ghost use Rattle.core_map.specs.Walking.{with_path};
ghost use Rattle.core_map.specs.Walking.{entered, marked, lowered, lowered_first, taken_off, IsWalked, AreSeen};
ghost use Rattle.core_map.specs.Walking.{other_of, parent_in, cut_in};

use crate::bridges::cable_at;
use crate::cables_at::CablesAt;
use crate::sources::sources;
use fabric_map::{FabricMap, MapCable};
use std::alloc::{AllocError, Global};
use std::marker::Model;

/// A vertex on the way.
#[derive(Clone, Copy)]
pub(crate) struct Step {
    /// The vertex.
    pub vertex: u32,
    /// The cable by which it was entered.
    pub entry: u32,
    /// The least number that cables other than the entry led to, from it and from what was entered from it.
    pub low: u64,
    /// Its cables from this number on were looked at.
    pub next: u32,
}

/// What a walk has found: numbers, 0 for what wasn't met and 1 where it begins; the vertex from which each was entered;
/// whether its entry cable cuts it off; the vertices in the order of their numbers, from 2 on; and the way to here.
#[derive(Drop)]
pub(crate) struct Walk {
    numbers: Vec<u64>,
    parents: Vec<u32>,
    cut: Vec<bool>,
    order: Vec<u32>,
    path: Vec<Step>,
}

impl Model for Walk {
    ghost use Rattle.std.specs.Prelude.{reverse};
    ghost use Rattle.core_map.specs.Walking.{WalkState};

    ghost Value = { WalkState };

    ghost view = { λ w. record {
      numbers = w.numbers.items;
      parents = w.parents.items;
      cut = w.cut.items;
      order = w.order.items;
      path = reverse w.path.items;
    } };
}

/// Walks over all that cables join to a host.
pub(crate) fn walk_all(alloc: Global, m: &FabricMap) -> Result<Walk, AllocError>
    ensures { IfOk result (λ w. IsWalked m.now w) }
{
    let at = CablesAt::new(alloc, m)?;
    let mut walk = Walk::new(alloc, m)?;
    for i in 0..m.cables().len() {
        walk.walk_cable(m, &at, i)?;
    }
    Ok(walk)
}

impl Walk {
    // No step yet.
    fn new(alloc: Global, m: &FabricMap) -> Result<Walk, AllocError>
        ensures walk { IfOk result (λ w. IsWalk m.now w) }
        ensures nowhere { IfOk result (λ w. w.path ≡ []) }
    {
        let vertices = m.vertices().len();
        Ok(Walk {
            numbers: sources(alloc, m)?,
            parents: vec![in alloc; 0; vertices]?,
            cut: vec![in alloc; false; vertices]?,
            order: Vec::new(alloc),
            path: Vec::new(alloc),
        })
    }

    // Walks on over a cable, one way or the other.
    fn walk_cable(&mut self, m: &FabricMap, at: &CablesAt, i: usize) -> Result<(), AllocError>
        requires cable { i < length m.now.cables }
        requires linked { AreLinked m.now at.now (length m.now.cables) }
        requires walk { IsWalk m.now self.old }
        requires nowhere { self.old.path ≡ [] }
        requires seen { AreSeen m.now self.old i }
        ensures walk { OnOk result (IsWalk m.now self.new) }
        ensures nowhere { OnOk result (self.new.path ≡ []) }
        ensures seen { OnOk result (AreSeen m.now self.new (i + 1)) }
    {
        let c = cable_at(m, i);
        self.walk_over(m, at, i as u32, c.v, c.w)?;
        self.walk_over(m, at, i as u32, c.w, c.v)?;
        Ok(())
    }

    // Walks over a cable from a vertex that was met to one that wasn't, and on from there.
    fn walk_over(
        &mut self,
        m: &FabricMap,
        at: &CablesAt,
        i: u32,
        v: u32,
        w: u32,
    ) -> Result<(), AllocError>
        requires linked { AreLinked m.now at.now (length m.now.cables) }
        requires first { v < length m.now.vertices }
        requires second { w < length m.now.vertices }
        requires joined { IsJoinedBy m.now i w v }
        requires walk { IsWalk m.now self.old }
        requires nowhere { self.old.path ≡ [] }
        ensures walk { OnOk result (IsWalk m.now self.new) }
        ensures nowhere { OnOk result (self.new.path ≡ []) }
        ensures grown { OnOk result (HasGrown self.old self.new) }
        ensures met { OnOk result (1 ≤ number_in self.old v → 1 ≤ number_in self.new w) }
    {
        if self.number(v) > 0 && self.number(w) == 0 {
            self.enter(m, at, i, v, w)?;
            self.walk_on(m, at)?;
        }
        Ok(())
    }

    // Walks on until the way back is done.
    fn walk_on(&mut self, m: &FabricMap, at: &CablesAt) -> Result<(), AllocError>
        requires linked { AreLinked m.now at.now (length m.now.cables) }
        requires walk { IsWalk m.now self.old }
        ensures walk { OnOk result (IsWalk m.now self.new) }
        ensures nowhere { OnOk result (self.new.path ≡ []) }
        ensures grown { OnOk result (HasGrown self.old self.new) }
    {
        'walking: while let Some(step) = self.pop() {
            self.walk_step(m, at, step)?;
        }
        Ok(())
    }

    // Looks at the next cable of the last step, or takes that step back.
    fn walk_step(&mut self, m: &FabricMap, at: &CablesAt, step: Step) -> Result<(), AllocError>
        requires linked { AreLinked m.now at.now (length m.now.cables) }
        requires walk { IsWalk m.now (with_path self.old (step ∷ self.old.path)) }
        ensures walk { OnOk result (IsWalk m.now self.new) }
        ensures grown { OnOk result (HasGrown self.old self.new) }
        ensures smaller { OnOk result (weight m.now self.new
            < weight m.now (with_path self.old (step ∷ self.old.path))) }
    {
        if step.next == 0 {
            self.leave(m, step)
        } else {
            self.look(m, at, step, step.next - 1)
        }
    }

    // Takes a step back whose cables were all looked at: the entry cable cuts off what leads to no lower number.
    fn leave(&mut self, m: &FabricMap, step: Step) -> Result<(), AllocError>
        requires walk { IsWalk m.now (with_path self.old (step ∷ self.old.path)) }
        requires done { step.next ≡ 0 }
        ensures walk { OnOk result (IsWalk m.now self.new) }
        ensures grown { OnOk result (HasGrown self.old self.new) }
        ensures smaller { OnOk result (weight m.now self.new
            < weight m.now (with_path self.old (step ∷ self.old.path))) }
    {
        self.mark(step);
        self.lower_last(step.low)?;
        Ok(())
    }

    // Marks the vertex of a step, if its entry cable cuts it off.
    fn mark(&mut self, step: Step)
        requires { step.vertex < length self.old.cut }
        ensures { self.new ≡ marked self.old step }
    {
        self.cut[step.vertex as usize] = step.low == self.number(step.vertex);
    }

    // Looks at a cable of the last step.
    fn look(&mut self, m: &FabricMap, at: &CablesAt, step: Step, i: u32) -> Result<(), AllocError>
        requires linked { AreLinked m.now at.now (length m.now.cables) }
        requires walk { IsWalk m.now (with_path self.old (step ∷ self.old.path)) }
        requires cable { step.next ≡ suc i }
        ensures walk { OnOk result (IsWalk m.now self.new) }
        ensures grown { OnOk result (HasGrown self.old self.new) }
        ensures smaller { OnOk result (weight m.now self.new
            < weight m.now (with_path self.old (step ∷ self.old.path))) }
    {
        let w = other_end(cable_at(m, i as usize), step.vertex);
        let number = self.number(w);
        if number == 0 {
            self.push(step)?;
            self.enter(m, at, i, step.vertex, w)?;
        } else {
            let low = if i == step.entry { step.low } else { number };
            let next = at.before(m, i, step.vertex);
            self.push(lowered(Step { next, ..step }, low))?;
        }
        Ok(())
    }

    // Makes a step over a cable to a vertex that wasn't met.
    fn enter(
        &mut self,
        m: &FabricMap,
        at: &CablesAt,
        i: u32,
        v: u32,
        w: u32,
    ) -> Result<(), AllocError>
        requires linked { AreLinked m.now at.now (length m.now.cables) }
        requires vertex { w < length m.now.vertices }
        requires joined { IsJoinedBy m.now i w v }
        requires walk { IsWalk m.now self.old }
        requires from { IsFrom self.old.path v }
        requires met { 1 ≤ number_in self.old v }
        requires new { number_in self.old w ≡ 0 }
        ensures walk { OnOk result (IsWalk m.now self.new) }
        ensures grown { OnOk result (HasGrown self.old self.new) }
        ensures numbered { OnOk result (1 ≤ number_in self.new w) }
        ensures smaller { OnOk result (weight m.now self.new < weight m.now self.old) }
    {
        let next = at.last(m, w);
        self.add(i, v, w, next)?;
        Ok(())
    }

    // Gives a vertex the next number, and makes a step there.
    fn add(&mut self, i: u32, v: u32, w: u32, next: u32) -> Result<(), AllocError>
        requires numbers { w < length self.old.numbers }
        requires parents { w < length self.old.parents }
        ensures { OnOk result (self.new ≡ entered self.old i v w next) }
    {
        let low = self.order.len() as u64 + 2;
        self.order.push(w)?;
        self.numbers[w as usize] = low;
        self.parents[w as usize] = v;
        self.push(Step {
            vertex: w,
            entry: i,
            low,
            next,
        })
    }

    // Lowers the least number of the last step, if there is one.
    fn lower_last(&mut self, low: u64) -> Result<(), AllocError>
        ensures { OnOk result (self.new ≡ with_path self.old (lowered_first low self.old.path)) }
    {
        match self.pop() {
            Some(step) => self.push(lowered(step, low)),
            None => Ok(()),
        }
    }

    // Puts a step after the others.
    fn push(&mut self, step: Step) -> Result<(), AllocError>
        ensures { OnOk result (self.new ≡ with_path self.old (step ∷ self.old.path)) }
    {
        self.path.push(step)?;
        Ok(())
    }

    // Takes the last step away.
    fn pop(&mut self) -> Option<Step>
        ensures taken { self.old ≡ with_path self.new (taken_off result self.new.path) }
        ensures nowhere { IfNone result (self.new.path ≡ []) }
    {
        self.path.pop()
    }

    /// The number of a vertex.
    pub(crate) fn number(&self, v: u32) -> u64
        ensures { result ≡ number_in self.now v }
    {
        match self.numbers.get(v as usize) {
            Some(number) => *number,
            None => 0,
        }
    }

    /// The vertices with numbers from 2 on, in their order.
    pub(crate) fn order(&self) -> &[u32]
        ensures { result.now ≡ self.now.order }
    {
        &self.order
    }

    /// The vertex at a place of that order.
    pub(crate) fn vertex(&self, j: usize) -> u32
        requires { j < length self.now.order }
        ensures { slice_get self.now.order j ≡ Some result }
    {
        self.order[j]
    }

    /// The vertex from which another was entered.
    pub(crate) fn parent(&self, v: usize) -> u32
        ensures { result ≡ parent_in self.now v }
    {
        match self.parents.get(v) {
            Some(parent) => *parent,
            None => 0,
        }
    }

    /// Whether its entry cable cuts a vertex off.
    pub(crate) fn is_cut(&self, v: usize) -> bool
        ensures { result ≡ cut_in self.now v }
    {
        match self.cut.get(v) {
            Some(is_cut) => *is_cut,
            None => false,
        }
    }
}

// A step with a least number that isn't above another.
fn lowered(step: Step, low: u64) -> Step
    ensures { result ≡ lowered low step }
{
    if low < step.low {
        Step { low, ..step }
    } else {
        step
    }
}

// The end of a cable that isn't this one.
fn other_end(c: MapCable, v: u32) -> u32
    ensures { result ≡ other_of c v }
{
    if c.v == v { c.w } else { c.v }
}
