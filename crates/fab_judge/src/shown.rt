//! The last map that a report shows.

ghost use Rattle.std.specs.Prelude.{◌≡◌, IfOk, OnOk, option_copied, slice_get};
ghost use Rattle.map_canon.specs.Declaring.{IsSwitchIndex};
ghost use Rattle.judge_defs.specs.Form.{vertex_told};
ghost use Rattle.fab_judge.specs.Shown.{complete_in, with_place};

use fabric_map::FabricMap;
use map_defs::MapVertex;
use std::alloc::{AllocError, Global};
use std::marker::Model;

/// The last map that was made, with its lines.
#[derive(Drop)]
pub(crate) struct ShownMap {
    /// The map.
    pub(crate) map: FabricMap,
    /// Whether the word was `complete`.
    pub(crate) complete: bool,
    // The vertex of each switch.
    switches: Vec<u32>,
}

impl Model for ShownMap {
    ghost use Rattle.fab_judge.specs.Shown.{Shown};
    ghost use Rattle.map_canon.specs.Declaring.{IsSwitchIndex};

    ghost Value = { Shown };

    ghost view = { λ s. record { map = s.map; complete = s.complete } };

    ghost invariant = { λ s. IsSwitchIndex s.map.vertices s.switches.items };
}

impl ShownMap {
    /// A map whose lines were read.
    pub(crate) fn new(alloc: Global, map: FabricMap, complete: bool) -> Result<ShownMap, AllocError>
        ensures { IfOk result (λ s. s ≡ record { map = map; complete = complete }) }
    {
        let switches = switches_of(alloc, &map)?;
        Ok(ShownMap {
            map,
            complete,
            switches,
        })
    }

    /// The place of a vertex.
    pub(crate) fn place_of(&self, vertex: MapVertex) -> Option<u32>
        ensures { result ≡ vertex_told self.now.map vertex }
    {
        match vertex {
            MapVertex::Host(h) => self.map.vertex_of_host(h),
            MapVertex::Switch(s) => number_at(&self.switches, s as usize),
        }
    }
}

/// The last map, where it is complete.
pub(crate) fn complete_map(shown: &Option<ShownMap>) -> Option<&FabricMap>
    ensures { option_copied result ≡ complete_in shown.now }
{
    match shown {
        Some(shown) if shown.complete => Some(&shown.map),
        _ => None,
    }
}

// The number at a place.
fn number_at(numbers: &[u32], place: usize) -> Option<u32>
    ensures { result ≡ slice_get numbers.now place }
{
    if place < numbers.len() {
        Some(numbers[place])
    } else {
        None
    }
}

// The places of a map's switches, by number.
fn switches_of(alloc: Global, map: &FabricMap) -> Result<Vec<u32>, AllocError>
    ensures { IfOk result (λ s. IsSwitchIndex map.now.vertices s.items) }
{
    let vertices = map.vertices();
    let mut switches = Vec::new(alloc);
    'vertices: for v in 0..vertices.len() {
        add_switch(&mut switches, v as u32, vertex_at(vertices, v))?;
    }
    Ok(switches)
}

// The vertex at a place.
fn vertex_at(vertices: &[MapVertex], v: usize) -> Option<MapVertex>
    ensures { result ≡ slice_get vertices.now v }
{
    vertices.get(v).copied()
}

// The place of a vertex joins those of switches, where it is one.
fn add_switch(switches: &mut Vec<u32>, v: u32, vertex: Option<MapVertex>) -> Result<(), AllocError>
    ensures { OnOk result (switches.new.items ≡ with_place vertex v switches.old.items) }
{
    match vertex {
        Some(MapVertex::Switch(_)) => {
            switches.push(v)?;
            Ok(())
        }
        _ => Ok(()),
    }
}
