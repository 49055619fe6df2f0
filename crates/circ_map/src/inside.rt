//! A map without the vertices that are outside.

ghost use Rattle.std.specs.Prelude.{◌≡◌, ◌++◌, ◌∷◌, [], ◌<◌, ◌≤◌, ◌^◌, length, slice_get, slice_index_or};
ghost use Rattle.std.specs.Prelude.{if◌then◌else◌, false, None, Some, IfSome, IfOk, OnOk};
ghost use Rattle.map_defs.specs.Core.{core_of};
ghost use Rattle.map_defs.specs.NetMap.{host_of_vertex};
ghost use Rattle.map_quotient.specs.Naming.{with_vertex};
ghost use Rattle.circ_defs.specs.CircuitMap.{IsWithoutOutside};
ghost use Rattle.circ_map.specs.Inside.{IsRising, marked_below, number_in, renumbered, bare, inside};
ghost use Rattle.circ_map.specs.Inside.{vertex_refusal};
ghost use Rattle.fabric_map.specs.Growing.{cable_refusal};

use fabric_map::{FabricMap, MapCable, MapFault, MapVertex};
use std::alloc::{AllocError, Global};

/// The vertices of the core, in their order, and the cables between them. The map's core is marked.
pub(crate) fn without_outside(alloc: Global, m: &FabricMap) -> Result<FabricMap, AllocError>
    requires { m.now.core ≡ core_of m.now }
    ensures is { IfOk result (λ k. k ≡ inside m.now (marked_below m.now.core (length m.now.core))) }
{
    let kept = marked(alloc, m.core())?;
    let mut map = bare(alloc, m, &kept)?;
    join_kept(&mut map, m, &kept)?;
    Ok(map)
}

// The numbers that are marked.
fn marked(alloc: Global, marks: &[bool]) -> Result<Vec<u32>, AllocError>
    requires { length marks.now < 2 ^ 32 }
    ensures kept { IfOk result (λ kept. kept.items ≡ marked_below marks.now (length marks.now)) }
    ensures few { IfOk result (λ kept. length kept.items ≤ length marks.now) }
{
    let mut kept = Vec::new(alloc);
    for v in 0..marks.len() {
        push_if(&mut kept, marks[v], v as u32)?;
    }
    Ok(kept)
}

// Puts a number at the end of others, if it is one of them.
fn push_if(numbers: &mut Vec<u32>, is_one: bool, number: u32) -> Result<(), AllocError>
    ensures { OnOk result (numbers.new.items ≡ numbers.old.items ++ (if is_one then number ∷ [] else [])) }
{
    if is_one {
        numbers.push(number)?;
    }
    Ok(())
}

// The map of these vertices, without cables.
fn bare(alloc: Global, m: &FabricMap, kept: &[u32]) -> Result<FabricMap, AllocError>
    requires rising { IsRising kept.now }
    requires few { length kept.now ≤ length m.now.vertices }
    ensures { IfOk result (λ k. k ≡ bare m.now kept.now) }
{
    let _ = m.vertices();
    let mut map = FabricMap::new(alloc);
    for v in kept {
        add_vertex(&mut map, address_of(m, *v))?;
    }
    Ok(map)
}

// The address of a vertex that is a host.
fn address_of(m: &FabricMap, v: u32) -> Option<u16>
    ensures { result ≡ host_of_vertex m.now v }
{
    match m.vertices().get(v as usize) {
        Some(MapVertex::Host(h)) => Some(*h),
        _ => None,
    }
}

// Adds a host of this address, or a switch, that isn't refused.
fn add_vertex(map: &mut FabricMap, address: Option<u16>) -> Result<(), AllocError>
    requires { vertex_refusal map.old address ≡ None }
    ensures { OnOk result (map.new ≡ with_vertex map.old address) }
{
    let added = match address {
        Some(h) => map.add_host(h),
        None => map.add_switch(true),
    };
    match added {
        Ok(_) => Ok(()),
        Err(MapFault::NoMemory) => Err(AllocError),
        Err(_) => unreachable!(),
    }
}

// Adds the cables of a map between vertices that are kept.
fn join_kept(map: &mut FabricMap, m: &FabricMap, kept: &[u32]) -> Result<(), AllocError>
    requires few { length kept.now < 2 ^ 32 }
    requires rising { IsRising kept.now }
    requires bare { map.old ≡ bare m.now kept.now }
    ensures { OnOk result (map.new ≡ inside m.now kept.now) }
{
    for k in 0..m.cables().len() {
        let c = cable_at(m, k);
        join(map, c, number_in(kept, c.v), number_in(kept, c.w))?;
    }
    Ok(())
}

// The cable of a number.
fn cable_at(m: &FabricMap, k: usize) -> MapCable
    requires { k < length m.now.cables }
    ensures { slice_get m.now.cables k ≡ Some result }
{
    m.cables()[k]
}

// The number that a vertex has among those that are kept.
fn number_in(kept: &[u32], v: u32) -> Option<u32>
    requires few { length kept.now < 2 ^ 32 }
    requires rising { IsRising kept.now }
    ensures { result ≡ number_in kept.now v }
{
    match place_in(kept, v) {
        Some(at) => Some(at as u32),
        None => None,
    }
}

// The place of a vertex among those that are kept, found by halves: there may be thousands of vertices and cables.
fn place_in(kept: &[u32], v: u32) -> Option<usize>
    requires { IsRising kept.now }
    ensures place { result ≡ number_in kept.now v }
    ensures low { IfSome result (λ at. at < length kept.now) }
{
    match kept.binary_search(&v) {
        Ok(at) => Some(at),
        Err(_) => None,
    }
}

// Adds a cable between two vertices that are kept, where it isn't refused.
fn join(map: &mut FabricMap, c: MapCable, v: Option<u32>, w: Option<u32>) -> Result<(), AllocError>
    requires { IfSome v (λ i. IfSome w (λ j.
        cable_refusal map.old (record { v = i; p = c.p; w = j; q = c.q }) ≡ None)) }
    ensures vertices { OnOk result (map.new.vertices ≡ map.old.vertices) }
    ensures cables { OnOk result (map.new.cables ≡ map.old.cables ++ renumbered c v w) }
    ensures core { OnOk result (map.new.core ≡ map.old.core) }
{
    let (Some(v), Some(w)) = (v, w) else {
        return Ok(());
    };
    match map.add_cable(MapCable {
        v,
        p: c.p,
        w,
        q: c.q,
    }) {
        Ok(_) => Ok(()),
        Err(MapFault::NoMemory) => Err(AllocError),
        Err(_) => unreachable!(),
    }
}
