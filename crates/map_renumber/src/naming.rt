//! The vertices of a map in another order.

ghost use Rattle.std.specs.Prelude.{◌≡◌, ◌<◌, ◌^◌, ℕ, ℤ, map as map_list, length, None, IfOk, OnOk};
ghost use Rattle.map_defs.specs.NetMap.{host_of_vertex};
ghost use Rattle.map_defs.specs.Quotient.{named};
ghost use Rattle.map_quotient.specs.Naming.{HaveOwnAddresses, vertex_refusal};
ghost use Rattle.map_renumber.specs.Canon.{is_of_core};
ghost use Rattle.map_renumber.specs.Naming.{bare_map, with_vertex};

use fabric_map::{FabricMap, MapFault, MapVertex};
use std::alloc::{AllocError, Global};

/// The map of these vertices with their marks and without cables, its switches numbered anew.
pub(crate) fn vertices_of(
    alloc: Global,
    m: &FabricMap,
    found: &[(u32, i8)],
) -> Result<FabricMap, AllocError>
    requires few { length found.now < 2 ^ 32 }
    requires own { HaveOwnAddresses (map_list (λ d. host_of_vertex m.now d.0) found.now) }
    ensures { IfOk result (λ k. k ≡ bare_map (named 0 (map_list (λ d. host_of_vertex m.now d.0) found.now))
        (map_list (λ d. is_of_core m.now d.0) found.now)) }
{
    let _ = m.vertices();
    let mut map = FabricMap::new(alloc);
    for entry in found {
        add_vertex(&mut map, address_at(m, entry.0), is_of_core(m, entry.0))?;
    }
    Ok(map)
}

// The address of a vertex that is a host.
fn address_at(m: &FabricMap, v: u32) -> Option<u16>
    ensures { result ≡ host_of_vertex m.now v }
{
    match m.vertices().get(v as usize) {
        Some(MapVertex::Host(h)) => Some(*h),
        _ => None,
    }
}

// Whether a vertex is of the core.
fn is_of_core(m: &FabricMap, v: u32) -> bool
    ensures { result ≡ is_of_core m.now v }
{
    m.core().get(v as usize).copied().unwrap_or(true)
}

// Adds a host of this address, or a switch with its mark, that isn't refused.
fn add_vertex(map: &mut FabricMap, address: Option<u16>, mark: bool) -> Result<(), AllocError>
    requires { vertex_refusal map.old address ≡ None }
    ensures { OnOk result (map.new ≡ with_vertex map.old address mark) }
{
    let added = match address {
        Some(h) => map.add_host(h),
        None => map.add_switch(mark),
    };
    match added {
        Ok(_) => Ok(()),
        Err(MapFault::NoMemory) => Err(AllocError),
        Err(_) => unreachable!(),
    }
}
