//! The certificate over the map of the ring of four.

ghost use Rattle.std.specs.Prelude.{◌≡◌, ◌≤◌, length, IfSome};
ghost use Rattle.map_defs.specs.NetMap.{IsConnected, switches_of};

use crate::fabrics::{RING, fabric_of};
use fabric_map::FabricMap;
use map_laws::journal_has_one_map;
use mapper::{Mapped, map};
use port_graph::Fabric;
use probe::FabricProber;
use rank_cert::{CheckFault, certify, check};
use route_calc::routes;
use std::alloc::{AllocError, Global};
use updown::orient;

// The map of a fabric from host 0, to a depth of 6.
fn map_from(alloc: Global, fabric: &Fabric) -> Option<FabricMap>
    ensures { IfSome result (λ m. IsConnected m) }
{
    if fabric.hosts() == 0 {
        return None;
    }
    journal_has_one_map();
    match map(alloc, &mut FabricProber::new(fabric, 0), 6) {
        Ok(made) => Some(map_in(made)),
        Err(_) => None,
    }
}

// The map that was made, without its journal.
fn map_in(made: Mapped) -> FabricMap
    ensures { result ≡ made.map }
{
    let Mapped {
        map,
        journal: _,
        end: _,
    } = made;
    map
}

// How many routes there are, and what the check says of them under the ranks of their map.
type Told = (usize, Result<(), CheckFault>);

// What it says of a connected map.
fn told(alloc: Global, m: &FabricMap) -> Result<Told, AllocError>
    requires connected { IsConnected m.now }
    requires few { length (switches_of m.now.vertices) ≤ 64 }
{
    let o = orient(alloc, m)?;
    let set = routes(alloc, m, &o)?;
    let ranks = certify(alloc, m, o.order())?;
    Ok((set.list().len(), check(m, &set, &ranks)))
}

// What it says of one that is small enough.
fn told_if_few(alloc: Global, m: &FabricMap) -> Option<Told>
    requires { IsConnected m.now }
{
    if m.switches() > 64 {
        return None;
    }
    told(alloc, m).ok()
}

// What is said of the map of a fabric.
fn told_of(alloc: Global, fabric: &Fabric) -> Option<Told> {
    match map_from(alloc, fabric) {
        Some(m) => told_if_few(alloc, &m),
        None => None,
    }
}

// The same of the fabric of a text.
fn told_of_text(alloc: Global, text: &str) -> Option<Told> {
    match fabric_of(alloc, text) {
        Some(fabric) => told_of(alloc, &fabric),
        None => None,
    }
}

#[test]
fn the_routes_of_a_ring_are_certified(rt: HostRuntime) {
    assert!(rt; told_of_text(rt.alloc(), RING) == Some((12, Ok(()))));
}
