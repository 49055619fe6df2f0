//! The numbering of a map.

ghost use Rattle.std.specs.Prelude.{◌≡◌, ℕ, [], Some, IfOk, OnOk};
ghost use Rattle.map_defs.specs.NetMap.{IsConnected, host_of_vertex};
ghost use Rattle.map_renumber.specs.Examples.{ring_map};

use fabric_map::{FabricMap, MapCable, MapFault};
use map_renumber::canon;
use std::alloc::{AllocError, Global};

const fn cable(v: u32, p: i8, w: u32, q: i8) -> MapCable
    ensures { result ≡ record { v = v; p = p; w = w; q = q } }
{
    MapCable { v, p, w, q }
}

// Puts a host and four switches into a map that has nothing.
fn put_vertices(map: &mut FabricMap) -> Result<(), MapFault>
    requires empty { map.old ≡ record { vertices = []; cables = []; core = [] } }
    ensures { OnOk result (map.new ≡ record {
      vertices = ring_map.vertices;
      cables = [];
      core = ring_map.core;
    }) }
{
    map.add_host(0)?;
    map.add_switch(true)?;
    map.add_switch(true)?;
    map.add_switch(true)?;
    map.add_switch(true)?;
    Ok(())
}

// Puts the cables of the ring into the map of its vertices.
fn put_cables(map: &mut FabricMap) -> Result<(), MapFault>
    requires bare { map.old ≡ record {
      vertices = ring_map.vertices;
      cables = [];
      core = ring_map.core;
    } }
    ensures { OnOk result (map.new ≡ ring_map) }
{
    map.add_cable(cable(0, 0, 1, 0))?;
    map.add_cable(cable(1, -2, 2, 0))?;
    map.add_cable(cable(1, -1, 3, 0))?;
    map.add_cable(cable(2, -1, 4, 0))?;
    map.add_cable(cable(3, 1, 4, -1))?;
    Ok(())
}

fn fill(map: &mut FabricMap) -> Result<(), MapFault>
    requires empty { map.old ≡ record { vertices = []; cables = []; core = [] } }
    ensures { OnOk result (map.new ≡ ring_map) }
{
    put_vertices(map)?;
    put_cables(map)
}

// A host at a ring of four switches, as its mapper numbers them.
fn ring(alloc: Global) -> Result<FabricMap, MapFault>
    ensures { IfOk result (λ m. m ≡ ring_map) }
{
    let mut map = FabricMap::new(alloc);
    match fill(&mut map) {
        Ok(()) => Ok(map),
        Err(fault) => Err(fault),
    }
}

// Whether a map is its own canon.
fn is_canon(alloc: Global, m: &FabricMap) -> Result<bool, AllocError>
    requires connected { IsConnected m.now }
    requires host { (h : ℕ) × (host_of_vertex m.now 0 ≡ Some h) }
{
    let map = canon(alloc, m)?;
    Ok(map.vertices() == m.vertices() && map.cables() == m.cables())
}

// Whether the map of the ring is.
fn is_ring_canon(alloc: Global) -> Option<bool> {
    match ring(alloc) {
        Ok(ring) => is_canon(alloc, &ring).ok(),
        Err(_) => None,
    }
}

#[test]
fn the_map_of_a_ring_is_its_own_canon(rt: HostRuntime) {
    assert!(rt; is_ring_canon(rt.alloc()) == Some(true));
}
