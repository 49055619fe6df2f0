//! The map of the lines so far, with its switches by number.

ghost use Rattle.std.specs.Prelude.{◌≡◌, ◌<◌, length, slice_get, IsErrOf, IsOk};
ghost use Rattle.fab_text.specs.Fault.{LineLeaves};
ghost use Rattle.map_defs.specs.NetMap.{switches_of};
ghost use Rattle.map_defs.specs.Routing.{vertex_of_host};
ghost use Rattle.fabric_map.specs.Growing.{empty_map, is_full, host_refusal, switch_refusal, with_host, with_switch};
ghost use Rattle.map_canon.specs.Declaring.{unless, cable_placed, refused_line, vertex_of_switch};

use fab_text::{FaultKind, LineFault};
use fabric_map::{FabricMap, MapCable, MapFault};
use std::alloc::Global;
use std::marker::Model;

/// A map that grows line by line. Contracts see the map.
#[derive(Drop)]
pub(crate) struct MapSoFar {
    map: FabricMap,
    // The vertex of each switch.
    switches: Vec<u32>,
}

impl Model for MapSoFar {
    ghost use Rattle.map_defs.specs.NetMap.{NetMap};
    ghost use Rattle.map_canon.specs.Declaring.{IsSwitchIndex};

    ghost Value = { NetMap };

    ghost view = { λ m. m.map };

    ghost invariant = { λ m. IsSwitchIndex m.map.vertices m.switches.items };
}

impl MapSoFar {
    pub(crate) fn new(alloc: Global) -> MapSoFar
        ensures { result ≡ empty_map }
    {
        MapSoFar {
            map: FabricMap::new(alloc),
            switches: Vec::new(alloc),
        }
    }

    pub(crate) fn into_map(self) -> FabricMap
        ensures { result ≡ self }
    {
        let MapSoFar { map, switches: _ } = self;
        map
    }

    /// Adds a host by its address.
    pub(crate) fn add_host(&mut self, h: u16) -> Result<(), LineFault>
        ensures reading { LineLeaves (unless (host_refusal self.old h) (with_host self.old h)) self.new result }
        ensures memory { IsErrOf result LineFault.NoMemory
            → IsOk (unless (host_refusal self.old h) (with_host self.old h)) }
    {
        match self.map.add_host(h) {
            Ok(_) => Ok(()),
            Err(fault) => Err(refused(fault)),
        }
    }

    /// Adds the next switch.
    pub(crate) fn add_switch(&mut self, core: bool) -> Result<(), LineFault>
        ensures reading { LineLeaves (unless (switch_refusal self.old) (with_switch self.old core)) self.new result }
        ensures memory { IsErrOf result LineFault.NoMemory
            → IsOk (unless (switch_refusal self.old) (with_switch self.old core)) }
    {
        if is_full(&self.map) {
            return Err(LineFault::Wrong(FaultKind::Full));
        }
        if self.switches.reserve(1).is_err() {
            return Err(LineFault::NoMemory);
        }
        match self.map.add_switch(core) {
            Ok(vertex) => {
                self.switches.push_reserved(vertex);
                Ok(())
            }
            Err(fault) => Err(refused(fault)),
        }
    }

    /// Adds a cable.
    pub(crate) fn add_cable(&mut self, c: MapCable) -> Result<(), LineFault>
        ensures reading { LineLeaves (cable_placed self.old c) self.new result }
        ensures memory { IsErrOf result LineFault.NoMemory → IsOk (cable_placed self.old c) }
    {
        match self.map.add_cable(c) {
            Ok(_) => Ok(()),
            Err(fault) => Err(refused(fault)),
        }
    }

    /// How many switches there are.
    pub(crate) fn switches(&self) -> usize
        ensures { result ≡ length (switches_of self.now.vertices) }
    {
        self.switches.len()
    }

    /// The vertex of a host.
    pub(crate) fn vertex_of_host(&self, h: u16) -> Option<u32>
        ensures { result ≡ vertex_of_host self.now h }
    {
        self.map.vertex_of_host(h)
    }

    /// The vertex of a switch.
    pub(crate) fn vertex_of_switch(&self, s: u32) -> Option<u32>
        ensures { result ≡ vertex_of_switch self.now s }
    {
        number_at(&self.switches, s as usize)
    }
}

// The number at a place.
fn number_at(numbers: &[u32], place: usize) -> Option<u32>
    ensures { result ≡ slice_get numbers.now place }
{
    if place < numbers.len() {
        Some(numbers[place])
    } else {
        None
    }
}

// Whether no number is left for one vertex more.
fn is_full(map: &FabricMap) -> bool
    ensures { result ≡ is_full (length map.now.vertices) }
{
    map.vertices().len() >= u32::MAX as usize
}

// What a map's refusal of a line comes to.
fn refused(fault: MapFault) -> LineFault
    ensures { result ≡ refused_line fault }
{
    match fault {
        MapFault::HostTaken => LineFault::Wrong(FaultKind::NameTaken),
        MapFault::Full => LineFault::Wrong(FaultKind::Full),
        MapFault::NoVertex => LineFault::Wrong(FaultKind::NoVertex),
        MapFault::PortRange => LineFault::Wrong(FaultKind::PortRange),
        MapFault::PortUsed => LineFault::Wrong(FaultKind::PortUsed),
        MapFault::NoMemory => LineFault::NoMemory,
    }
}
