//! A map renumbered by least walks from vertex 0.

ghost use Rattle.std.specs.Prelude.{◌≡◌, ℕ, map as map_list, slice_get, Some, None, IfOk, OnOk};
ghost use Rattle.map_defs.specs.declared.vertex.MapCable.{MapCable};
ghost use Rattle.map_defs.specs.NetMap.{IsConnected, host_of_vertex, first_end, second_end};
ghost use Rattle.map_defs.specs.Sameness.{IsSame, graph_of_map};
ghost use Rattle.fabric_map.specs.Growing.{cable_refusal, with_cable};
ghost use Rattle.map_renumber.specs.Canon.{IsCanon};
ghost use Rattle.map_renumber.specs.Search.{IsKnown, AreTaken, port_of_pair, moved_port, moved_cable, with_moved};

use crate::naming::vertices_of;
use crate::search::{Search, searched};
use fabric_map::{FabricMap, MapCable, MapFault};
use map_quotient::put_in_order;
use std::alloc::{AllocError, Global};

/// The map with its vertices, and their marks, in the order of their least walks from vertex 0, the ports of each
/// counted from the port by which that walk enters it, and its cables in order. So two maps that are the same up to
/// offset, with the same host as vertex 0, have one canon, marks aside. The map is connected, and vertex 0 is a host.
pub fn canon(alloc: Global, m: &FabricMap) -> Result<FabricMap, AllocError>
    requires connected { IsConnected m.now }
    requires host { (h : ℕ) × (host_of_vertex m.now 0 ≡ Some h) }
    ensures ordered { IfOk result (λ k. IsCanon m.now k) }
    ensures same { IfOk result (λ k. IsSame (graph_of_map m.now) (graph_of_map k)) }
{
    let _ = m.cables();
    let search = searched(alloc, m)?;
    let mut map = vertices_of(alloc, m, &search.found)?;
    move_cables(&mut map, m, &search)?;
    put_in_order(alloc, &mut map)?;
    Ok(map)
}

// Adds the cables between the same vertices, by their new numbers and ports.
fn move_cables(map: &mut FabricMap, m: &FabricMap, search: &Search) -> Result<(), AllocError>
    requires known { (c : MapCable) (k : ℕ) → slice_get m.now.cables k ≡ Some c
        → IsKnown search.now.found.items search.now.numbers.items (first_end c)
        × IsKnown search.now.found.items search.now.numbers.items (second_end c) }
    requires taken { AreTaken map.old (map_list port_of_pair search.now.found.items) search.now.numbers.items
        m.now.cables }
    ensures { OnOk result (map.new ≡ with_moved map.old (map_list port_of_pair search.now.found.items)
        search.now.numbers.items m.now.cables) }
{
    for cable in m.cables() {
        add(map, moved_cable(search, *cable))?;
    }
    Ok(())
}

// Adds a cable that the map takes.
fn add(map: &mut FabricMap, cable: MapCable) -> Result<(), AllocError>
    requires { cable_refusal map.old cable ≡ None }
    ensures { OnOk result (map.new ≡ with_cable map.old cable) }
{
    match map.add_cable(cable) {
        Ok(_) => Ok(()),
        Err(MapFault::NoMemory) => Err(AllocError),
        Err(_) => unreachable!(),
    }
}

// A cable between the same vertices by their new numbers and ports.
fn moved_cable(search: &Search, c: MapCable) -> MapCable
    requires first { IsKnown search.now.found.items search.now.numbers.items (first_end c) }
    requires second { IsKnown search.now.found.items search.now.numbers.items (second_end c) }
    ensures { result ≡ moved_cable (map_list port_of_pair search.now.found.items) search.now.numbers.items c }
{
    let d = moved_port(search, c.v, c.p);
    let e = moved_port(search, c.w, c.q);
    MapCable {
        v: d.0,
        p: d.1,
        w: e.0,
        q: e.1,
    }
}

// A port by its vertex's new number, counted from the port by which that was entered.
fn moved_port(search: &Search, v: u32, p: i8) -> (u32, i8)
    requires { IsKnown search.now.found.items search.now.numbers.items record { v = v; p = p } }
    ensures vertex { result.0
        ≡ (moved_port (map_list port_of_pair search.now.found.items) search.now.numbers.items record {
          v = v;
          p = p;
        }).v }
    ensures port { result.1
        ≡ (moved_port (map_list port_of_pair search.now.found.items) search.now.numbers.items record {
          v = v;
          p = p;
        }).p }
{
    let number = search.numbers[v as usize].unwrap();
    (number, p - search.found[number as usize].1)
}
