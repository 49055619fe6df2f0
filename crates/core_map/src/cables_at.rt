//! The cables at each vertex, from the last one down.

ghost use Rattle.std.specs.Prelude.{◌≡◌, ◌<◌, ◌≤◌, ◌+◌, ◌^◌, length, slice_index_or, IfOk, OnOk};
ghost use Rattle.core_map.specs.Walking.{AreLinked, EndsAt, IsLastAt, with_before, with_last};

use crate::bridges::cable_at;
use fabric_map::{FabricMap, MapCable};
use std::alloc::{AllocError, Global};
use std::marker::Model;

/// For each vertex its last cable, and for each cable the one before it at either end. A cable is named by its number
/// and one; 0 is no cable.
#[derive(Drop)]
pub(crate) struct CablesAt {
    last: Vec<u32>,
    firsts: Vec<u32>,
    seconds: Vec<u32>,
}

impl Model for CablesAt {
    ghost use Rattle.core_map.specs.Walking.{Links};

    ghost Value = { Links };

    ghost view = { λ a. record { last = a.last.items; firsts = a.firsts.items; seconds = a.seconds.items } };
}

impl CablesAt {
    /// The cables at each vertex of a map.
    pub(crate) fn new(alloc: Global, m: &FabricMap) -> Result<CablesAt, AllocError>
        ensures { IfOk result (λ a. AreLinked m.now a (length m.now.cables)) }
    {
        let mut at = CablesAt::none(alloc, m)?;
        for i in 0..m.cables().len() {
            at.add(m, i)?;
        }
        Ok(at)
    }

    // No cable yet.
    fn none(alloc: Global, m: &FabricMap) -> Result<CablesAt, AllocError>
        ensures { IfOk result (λ a. AreLinked m.now a 0) }
    {
        let last = vec![in alloc; 0; m.vertices().len()]?;
        Ok(CablesAt {
            last,
            firsts: Vec::new(alloc),
            seconds: Vec::new(alloc),
        })
    }

    // Adds the next cable at both of its ends.
    fn add(&mut self, m: &FabricMap, i: usize) -> Result<(), AllocError>
        requires cable { i < length m.now.cables }
        requires before { AreLinked m.now self.old i }
        ensures { OnOk result (AreLinked m.now self.new (i + 1)) }
    {
        let c = cable_at(m, i);
        let first = self.last_at(c.v);
        let second = self.last_at(c.w);
        self.push_before(first, second)?;
        self.put_last(c, i as u32);
        Ok(())
    }

    // Adds the cables before the next one, at either end.
    fn push_before(&mut self, first: u32, second: u32) -> Result<(), AllocError>
        ensures { OnOk result (self.new ≡ with_before self.old first second) }
    {
        self.firsts.push(first)?;
        self.seconds.push(second)?;
        Ok(())
    }

    // Has a cable as the last at both of its ends.
    fn put_last(&mut self, c: MapCable, i: u32)
        requires number { i + 1 < 2 ^ 32 }
        requires first { c.v < length self.old.last }
        requires second { c.w < length self.old.last }
        ensures { self.new ≡ with_last self.old c i }
    {
        self.last[c.v as usize] = i + 1;
        self.last[c.w as usize] = i + 1;
    }

    /// The last cable at a vertex.
    pub(crate) fn last(&self, m: &FabricMap, v: u32) -> u32
        requires linked { AreLinked m.now self.now (length m.now.cables) }
        requires vertex { v < length m.now.vertices }
        ensures { IsLastAt m.now v (length m.now.cables) result }
    {
        self.last[v as usize]
    }

    /// The cable before one at a vertex.
    pub(crate) fn before(&self, m: &FabricMap, i: u32, v: u32) -> u32
        requires linked { AreLinked m.now self.now (length m.now.cables) }
        requires cable { i < length m.now.cables }
        requires ends { EndsAt m.now i v }
        ensures { IsLastAt m.now v i result }
    {
        let c = cable_at(m, i as usize);
        if c.v == v {
            self.first_before(i)
        } else {
            self.second_before(i)
        }
    }

    // The last cable at a vertex.
    fn last_at(&self, v: u32) -> u32
        ensures { result ≡ slice_index_or self.now.last v 0 }
    {
        match self.last.get(v as usize) {
            Some(last) => *last,
            None => 0,
        }
    }

    // The cable before one at its first end.
    fn first_before(&self, i: u32) -> u32
        ensures { result ≡ slice_index_or self.now.firsts i 0 }
    {
        match self.firsts.get(i as usize) {
            Some(before) => *before,
            None => 0,
        }
    }

    // The cable before one at its second end.
    fn second_before(&self, i: u32) -> u32
        ensures { result ≡ slice_index_or self.now.seconds i 0 }
    {
        match self.seconds.get(i as usize) {
            Some(before) => *before,
            None => 0,
        }
    }
}
