//! Switch bridges, what they cut off, and the marks of the core.

ghost use Rattle.std.specs.Prelude.{◌≡◌, ℕ, ◌<◌, ◌^◌, ◌++◌, ◌∷◌, [], Bool, true, false, not, map, length, is_some};
ghost use Rattle.std.specs.Prelude.{slice_get, slice_index_or, if◌then◌else◌, Some, IfOk, OnOk, OnErr};
ghost use Rattle.std.specs.List.{list_any};
ghost use Rattle.map_defs.specs.NetMap.{IsMap, host_of_vertex, is_switch_vertex};
ghost use Rattle.map_defs.specs.Core.{bridges_of, core_of, cut_off_by, hostless_side, is_hostless, is_switch_bridge};
ghost use Rattle.map_defs.specs.Core.{side};
ghost use Rattle.fabric_map.specs.Growing.{with_core};
ghost use Rattle.core_map.specs.Marks.{marks_of, either, joins_host, outside_of};

use crate::outside::outside;
use crate::side::side;
use fabric_map::{FabricMap, MapCable, MapVertex};
use std::alloc::{AllocError, Global};

/// The cables between two switches whose removal leaves a side without hosts, by number, rising.
pub fn switch_bridges(alloc: Global, m: &FabricMap) -> Result<Vec<u32>, AllocError>
    ensures { IfOk result (λ bridges. bridges.items ≡ bridges_of m.now) }
{
    let mut bridges = Vec::new(alloc);
    for k in 0..m.cables().len() {
        let is_bridge = is_bridge(alloc, m, k)?;
        push_if(&mut bridges, is_bridge, k as u32)?;
    }
    Ok(bridges)
}

/// Marks what is of the core: each vertex but those on a side without hosts.
pub fn mark_core(alloc: Global, m: &mut FabricMap) -> Result<(), AllocError>
    ensures marked { OnOk result (m.new ≡ with_core m.old (core_of m.old)) }
    ensures unchanged { OnErr result (m.new ≡ m.old) }
{
    let core = core(alloc, m)?;
    m.set_core(core);
    Ok(())
}

// For each vertex, whether it is of the core.
fn core(alloc: Global, m: &FabricMap) -> Result<Vec<bool>, AllocError>
    ensures core { IfOk result (λ core. core.items ≡ core_of m.now) }
    ensures is_map { IfOk result (λ core. IsMap (with_core m.now core.items)) }
{
    let _ = m.vertices();
    let outside = outside(alloc, m)?;
    let core = flipped(alloc, &outside)?;
    Ok(core)
}

// Marks for those that have none.
fn flipped(alloc: Global, marks: &[bool]) -> Result<Vec<bool>, AllocError>
    ensures { IfOk result (λ others. others.items ≡ map not marks.now) }
{
    marks.iter().map(|mark| !*mark).collect(alloc)
}

// Adds a number, if it is to be.
fn push_if(numbers: &mut Vec<u32>, is_one: bool, number: u32) -> Result<(), AllocError>
    ensures { OnOk result (numbers.new.items ≡ numbers.old.items ++ (if is_one then number ∷ [] else [])) }
{
    if is_one {
        numbers.push(number)?;
    }
    Ok(())
}

// Whether a cable is a switch bridge.
fn is_bridge(alloc: Global, m: &FabricMap, k: usize) -> Result<bool, AllocError>
    requires { k < length m.now.cables }
    ensures { IfOk result (λ is_one. is_one ≡ is_switch_bridge m.now k) }
{
    let _ = cable_at(m, k);
    let cut = cut_off(alloc, m, k)?;
    Ok(has_mark(&cut))
}

// Marks the vertices that a cable joins to the hosts.
fn cut_off(alloc: Global, m: &FabricMap, k: usize) -> Result<Vec<bool>, AllocError>
    requires { k < length m.now.cables }
    ensures { IfOk result (λ marks. marks.items ≡ marks_of m.now (cut_off_by m.now k)) }
{
    let c = cable_at(m, k);
    if is_switch(m, c.v) && is_switch(m, c.w) {
        both_sides(alloc, m, k, c)
    } else {
        no_marks(alloc, m)
    }
}

// Marks the sides of both ends of a cable, as far as they have no host.
fn both_sides(alloc: Global, m: &FabricMap, k: usize, c: MapCable) -> Result<Vec<bool>, AllocError>
    requires cable { k < length m.now.cables }
    requires first { c.v < length m.now.vertices }
    requires second { c.w < length m.now.vertices }
    ensures { IfOk result (λ marks. marks.items ≡ marks_of m.now
        (hostless_side m.now k c.v ++ hostless_side m.now k c.w)) }
{
    let mut marks = hostless_side(alloc, m, k, c.v)?;
    let other = hostless_side(alloc, m, k, c.w)?;
    add_marks(&mut marks, &other);
    Ok(marks)
}

// Marks the side of a vertex without a cable, if it has no host.
fn hostless_side(alloc: Global, m: &FabricMap, k: usize, v: u32) -> Result<Vec<bool>, AllocError>
    requires cable { k < length m.now.cables }
    requires vertex { v < length m.now.vertices }
    ensures { IfOk result (λ marks. marks.items ≡ marks_of m.now (hostless_side m.now k v)) }
{
    if is_near_host(m, k, v) {
        no_marks(alloc, m)
    } else {
        searched_side(alloc, m, k, v)
    }
}

// Marks the side of a vertex without a cable, if a search finds no host there.
fn searched_side(alloc: Global, m: &FabricMap, k: usize, v: u32) -> Result<Vec<bool>, AllocError>
    requires cable { k < length m.now.cables }
    requires vertex { v < length m.now.vertices }
    ensures { IfOk result (λ marks. marks.items ≡ marks_of m.now (hostless_side m.now k v)) }
{
    let _ = m.vertices();
    let side = side(alloc, m, k, v)?;
    if is_hostless(m, &side) {
        Ok(side)
    } else {
        no_marks(alloc, m)
    }
}

// Whether a cable but this one joins a vertex to a host. Most switches have one, and nothing is searched there.
fn is_near_host(m: &FabricMap, k: usize, v: u32) -> bool
    requires cable { k < length m.now.cables }
    requires vertex { v < length m.now.vertices }
    ensures { result ≡ true → is_hostless m.now (side m.now k v) ≡ false }
{
    let cables = m.cables();
    for (i, cable) in cables.iter().enumerate() {
        if i != k && joins_host(m, *cable, v) {
            return true;
        }
    }
    false
}

// Whether a cable joins a vertex to a host.
fn joins_host(m: &FabricMap, c: MapCable, v: u32) -> bool
    ensures { result ≡ joins_host m.now c v }
{
    (c.v == v && is_host(m, c.w as usize)) || (c.w == v && is_host(m, c.v as usize))
}

/// No vertex is marked.
pub(crate) fn no_marks(alloc: Global, m: &FabricMap) -> Result<Vec<bool>, AllocError>
    ensures { IfOk result (λ marks. marks.items ≡ marks_of m.now []) }
{
    let marks = vec![in alloc; false; m.vertices().len()]?;
    Ok(marks)
}

/// The cable of a number.
pub(crate) fn cable_at(m: &FabricMap, k: usize) -> MapCable
    requires { k < length m.now.cables }
    ensures there { slice_get m.now.cables k ≡ Some result }
    ensures first { result.v < length m.now.vertices }
    ensures second { result.w < length m.now.vertices }
    ensures is_map { IsMap m.now }
    ensures few { length m.now.cables < 2 ^ 32 }
{
    m.cables()[k]
}

// Whether none of the marked vertices is a host.
fn is_hostless(m: &FabricMap, marks: &[bool]) -> bool
    ensures no_host { result ≡ true → (v : ℕ) → slice_index_or marks.now v false ≡ true
        → is_some (host_of_vertex m.now v) ≡ false }
    ensures a_host { result ≡ false → (v : ℕ) × (slice_index_or marks.now v false ≡ true)
        × (is_some (host_of_vertex m.now v) ≡ true) }
{
    for (v, mark) in marks.iter().enumerate() {
        if *mark && is_host(m, v) {
            return false;
        }
    }
    true
}

// Adds marks to marks.
fn add_marks(marks: &mut [bool], more: &[bool])
    requires { length marks.old ≡ length more.now }
    ensures { marks.new ≡ either marks.old more.now }
{
    for (v, mark) in more.iter().enumerate() {
        if *mark {
            marks[v] = true;
        }
    }
}

// Whether a vertex is marked.
fn has_mark(marks: &[bool]) -> bool
    ensures { result ≡ list_any (λ b. b) marks.now }
{
    marks.iter().any(|mark| *mark)
}

// Whether a vertex is a switch.
fn is_switch(m: &FabricMap, v: u32) -> bool
    ensures { result ≡ is_switch_vertex m.now v }
{
    match m.vertices().get(v as usize) {
        Some(MapVertex::Switch(_)) => true,
        _ => false,
    }
}

/// Whether a vertex is a host.
pub(crate) fn is_host(m: &FabricMap, v: usize) -> bool
    ensures { result ≡ is_some (host_of_vertex m.now v) }
{
    match m.vertices().get(v) {
        Some(MapVertex::Host(_)) => true,
        _ => false,
    }
}
