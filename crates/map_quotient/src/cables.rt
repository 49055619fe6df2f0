//! The cables of a map in the order of a report: each at its lesser end, by vertex, then by port.

ghost use Rattle.std.specs.Prelude.{◌≡◌, ◌+◌, ◌*◌, ◌<◌, ◌^◌, length, None, OnOk, IfOk};
ghost use Rattle.fabric_map.specs.Growing.{IsFabricMap, cable_refusal, with_cable};
ghost use Rattle.map_quotient.specs.InOrder.{cable_from, cables_below, in_order, port_of_place};

use fabric_map::{FabricMap, MapCable};
use std::alloc::{AllocError, Global};

// The ports of one vertex.
const PORTS: usize = 31;

// The greatest port; the least is its negative.
const MAX_PORT: i8 = 15;

/// Puts the cables of a map in their order.
pub fn put_in_order(alloc: Global, map: &mut FabricMap) -> Result<(), AllocError>
    ensures ordered { OnOk result (map.new ≡ in_order map.old) }
    ensures is_map { IsFabricMap map.old }
{
    let cables = ordered(alloc, map)?;
    map.put_cables(cables);
    Ok(())
}

// The cables of a map in their order.
fn ordered(alloc: Global, map: &FabricMap) -> Result<Vec<MapCable>, AllocError>
    ensures cables { IfOk result (λ cables. cables.items ≡ cables_below map.now (31 * length map.now.vertices)) }
    ensures is_map { IsFabricMap map.now }
{
    let mut cables = Vec::with_capacity(alloc, map.cables().len())?;
    for v in 0..map.vertices().len() {
        add_cables_of(map, v, &mut cables)?;
    }
    Ok(cables)
}

// Adds the cables whose first end is a port of a vertex. Most vertices of a large map have one cable, and one port is
// looked at.
fn add_cables_of(map: &FabricMap, v: usize, cables: &mut Vec<MapCable>) -> Result<(), AllocError>
    requires few { v < 2 ^ 32 }
    requires before { cables.old.items ≡ cables_below map.now (31 * v) }
    ensures { OnOk result (cables.new.items ≡ cables_below map.now (31 * v + 31)) }
{
    let places = map.span(v as u32);
    for place in PORTS * v + places.0..PORTS * v + places.1 {
        if let Some(cable) = cable_from(map, place) {
            cables.push(cable)?;
        }
    }
    Ok(())
}

// The cable whose first end is the port at a place.
fn cable_from(map: &FabricMap, place: usize) -> Option<MapCable>
    requires { place < 31 * 2 ^ 32 }
    ensures { result ≡ cable_from map.now (port_of_place place) }
{
    let v = (place / PORTS) as u32;
    let p = (place % PORTS) as i8 - MAX_PORT;
    match map.map_far(v, p) {
        Some((w, q)) if v < w || (v == w && p < q) => Some(MapCable { v, p, w, q }),
        _ => None,
    }
}

/// Adds a cable that the map takes.
pub(crate) fn add(map: &mut FabricMap, cable: MapCable) -> Result<(), AllocError>
    requires { cable_refusal map.old cable ≡ None }
    ensures { OnOk result (map.new ≡ with_cable map.old cable) }
{
    let _number = map.add_new_cable(cable)?;
    Ok(())
}
