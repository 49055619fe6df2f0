//! A map in memory: reading it, growing it, marking its core.

ghost use Rattle.std.specs.Prelude.{◌≡◌, ℕ, ◌<◌, ◌≤◌, ◌↔◌, IsTrue, true, length, position, Some, None, IfSome, IfOk};
ghost use Rattle.std.specs.Prelude.{IfErr, OnOk, OnErr};
ghost use Rattle.net_defs.specs.Refusal.{Refuses};
ghost use Rattle.net_defs.specs.Turn.{IsTurn};
ghost use Rattle.map_defs.specs.NetMap.{MapPort, far_port, map_far, is_switch_vertex, switches_of};
ghost use Rattle.map_defs.specs.NetMap.{IsMap};
ghost use Rattle.map_defs.specs.Routing.{vertex_of_host};
ghost use Rattle.fabric_map.specs.Growing.{IsFabricMap, empty_map, with_host, with_switch, with_cable, with_cables};
ghost use Rattle.fabric_map.specs.Growing.{with_core};
ghost use Rattle.fabric_map.specs.Growing.{has_host, host_refusal, switch_refusal, cable_refusal, is_full as fullness};
ghost use Rattle.fabric_map.specs.Growing.{may_have, is_used};
ghost use Rattle.fabric_map.specs.Table.{far_pair, port_at};
ghost use Rattle.port_align.specs.Ends.{IsOutside};

use crate::cabling::{Cabling, is_close, is_port};
use crate::fault::MapFault;
use crate::vertices::Vertices;
use map_defs::{MapCable, MapVertex};
use std::alloc::{AllocError, Global};
use std::marker::Model;

/// Vertices, cables and core marks that keep the rules of maps. Contracts see the `NetMap` that it stands for.
///
/// Vertices and cables count from 0 in the order in which they came, and switches among themselves.
#[derive(Drop)]
pub struct FabricMap {
    vertices: Vertices,
    cabling: Cabling,
}

impl Model for FabricMap {
    ghost use Rattle.map_defs.specs.NetMap.{NetMap};
    ghost use Rattle.fabric_map.specs.Growing.{IsFabricMap};

    ghost Value = { NetMap };

    ghost view = { λ m. record { vertices = m.vertices.vertices; cables = m.cabling; core = m.vertices.core } };

    ghost invariant = { λ m.
        IsFabricMap (record { vertices = m.vertices.vertices; cables = m.cabling; core = m.vertices.core }) };
}

impl FabricMap {
    /// The map without vertices. It takes no memory.
    pub fn new(alloc: Global) -> FabricMap
        ensures { result ≡ empty_map }
    {
        FabricMap {
            vertices: Vertices::new(alloc),
            cabling: Cabling::new(alloc),
        }
    }

    /// The vertices by number.
    pub fn vertices(&self) -> &[MapVertex]
        ensures value { result.now ≡ self.now.vertices }
        ensures is_map { IsFabricMap self.now }
    {
        self.vertices.vertices()
    }

    /// The cables by number.
    pub fn cables(&self) -> &[MapCable]
        ensures value { result.now ≡ self.now.cables }
        ensures is_map { IsFabricMap self.now }
    {
        self.cabling.cables()
    }

    /// For each vertex whether it is of the core.
    pub fn core(&self) -> &[bool]
        ensures value { result.now ≡ self.now.core }
        ensures is_map { IsFabricMap self.now }
    {
        self.vertices.core()
    }

    /// How many vertices are switches.
    pub fn switches(&self) -> usize
        ensures { result ≡ length (switches_of self.now.vertices) }
    {
        self.vertices.switches()
    }

    /// The port at the other end of the cable at a port; none where there is no such port, or no cable at it.
    pub fn map_far(&self, v: u32, p: i8) -> Option<(u32, i8)>
        ensures port { result ≡ far_pair (map_far self.now record { v = v; p = p }) }
        ensures there { IfSome result (λ e. (e.0 < length self.now.vertices) × IsTurn e.1) }
    {
        self.cabling.far(v, p)
    }

    /// The ports of a vertex at which a cable may end, by their places, 0 for -15 to 30 for 15: from the first one up
    /// to the second.
    pub fn span(&self, v: u32) -> (usize, usize)
        ensures first { result.0 ≤ 31 }
        ensures end { result.1 ≤ 31 }
        ensures outside { (i : ℕ) → i < 31 → IsOutside result.0 result.1 i → map_far self.now (port_at v i) ≡ None }
    {
        self.cabling.span(v)
    }

    /// The vertex of a host, by its address.
    pub fn vertex_of_host(&self, h: u16) -> Option<u32>
        ensures vertex { result ≡ vertex_of_host self.now h }
    {
        self.vertices.find(h)
    }

    /// Adds a host of the core, and answers its vertex. Refused in this order: `HostTaken`, `Full`.
    pub fn add_host(&mut self, h: u16) -> Result<u32, MapFault>
        ensures vertex { IfOk result (λ v. v ≡ length self.old.vertices) }
        ensures added { OnOk result (self.new ≡ with_host self.old h) }
        ensures refused { Refuses (host_refusal self.old h) MapFault.NoMemory result }
        ensures unchanged { OnErr result (self.new ≡ self.old) }
    {
        match self.host_fault(h) {
            Some(fault) => Err(fault),
            None => self.push_host(h),
        }
    }

    /// Adds the next switch with its mark, and answers its vertex. Refused: `Full`.
    pub fn add_switch(&mut self, core: bool) -> Result<u32, MapFault>
        ensures vertex { IfOk result (λ v. v ≡ length self.old.vertices) }
        ensures added { OnOk result (self.new ≡ with_switch self.old core) }
        ensures refused { Refuses (switch_refusal self.old) MapFault.NoMemory result }
        ensures unchanged { OnErr result (self.new ≡ self.old) }
    {
        if is_full(self.vertices.vertices().len()) {
            Err(MapFault::Full)
        } else {
            self.push_switch(core)
        }
    }

    /// Room for so many vertices and cables more, so that it is taken once.
    pub fn reserve(&mut self, vertices: usize, cables: usize) -> Result<(), AllocError>
        ensures { self.new ≡ self.old }
    {
        self.vertices.reserve(vertices)?;
        self.cabling.reserve(cables)
    }

    /// Has these cables in place of its own: the same, in another order or the other way round. The far end of each
    /// port stays.
    pub fn put_cables(&mut self, cables: Vec<MapCable>)
        requires map { IsFabricMap (with_cables self.old cables.items) }
        requires same { (d : MapPort) → far_port cables.items d ≡ map_far self.old d }
        ensures { self.new ≡ with_cables self.old cables.items }
    {
        self.cabling.put(cables);
    }

    /// Adds a cable, and answers its number. Refused in this order: `NoVertex` of the first end, of the second,
    /// `PortRange` of the first, of the second, of both together, `PortUsed` where one has a cable or both are one
    /// port, `Full`.
    pub fn add_cable(&mut self, c: MapCable) -> Result<u32, MapFault>
        ensures number { IfOk result (λ k. k ≡ length self.old.cables) }
        ensures added { OnOk result (self.new ≡ with_cable self.old c) }
        ensures refused { Refuses (cable_refusal self.old c) MapFault.NoMemory result }
        ensures unchanged { OnErr result (self.new ≡ self.old) }
    {
        match self.cable_fault(c) {
            Some(fault) => Err(fault),
            None => self.push_cable(c),
        }
    }

    /// Adds a cable that is known not to be refused, and answers its number. It isn't tested.
    pub fn add_new_cable(&mut self, c: MapCable) -> Result<u32, AllocError>
        requires { cable_refusal self.old c ≡ None }
        ensures number { IfOk result (λ k. k ≡ length self.old.cables) }
        ensures added { OnOk result (self.new ≡ with_cable self.old c) }
        ensures unchanged { OnErr result (self.new ≡ self.old) }
    {
        let number = self.cabling.cables().len() as u32;
        let vertices = self.vertices.vertices().len();
        self.cabling.push(c, vertices)?;
        Ok(number)
    }

    /// Sets the marks of all vertices: a host's is true.
    pub fn set_core(&mut self, core: Vec<bool>)
        requires one_each { length core.items ≡ length self.old.vertices }
        requires hosts { IsMap (with_core self.old core.items) }
        ensures { self.new ≡ with_core self.old core.items }
    {
        self.vertices.set_core(core);
    }

    // Adds a host that isn't refused.
    fn push_host(&mut self, h: u16) -> Result<u32, MapFault>
        requires { host_refusal self.old h ≡ None }
        ensures vertex { IfOk result (λ v. v ≡ length self.old.vertices) }
        ensures added { OnOk result (self.new ≡ with_host self.old h) }
        ensures memory { IfErr result (λ e. e ≡ MapFault.NoMemory) }
        ensures unchanged { OnErr result (self.new ≡ self.old) }
    {
        let vertex = self.vertices.vertices().len() as u32;
        if self.vertices.push_host(h).is_err() {
            return Err(MapFault::NoMemory);
        }
        Ok(vertex)
    }

    // Adds a switch that isn't refused.
    fn push_switch(&mut self, core: bool) -> Result<u32, MapFault>
        requires { switch_refusal self.old ≡ None }
        ensures vertex { IfOk result (λ v. v ≡ length self.old.vertices) }
        ensures added { OnOk result (self.new ≡ with_switch self.old core) }
        ensures memory { IfErr result (λ e. e ≡ MapFault.NoMemory) }
        ensures unchanged { OnErr result (self.new ≡ self.old) }
    {
        let vertex = self.vertices.vertices().len() as u32;
        if self.vertices.push_switch(core).is_err() {
            return Err(MapFault::NoMemory);
        }
        Ok(vertex)
    }

    // Adds a cable that isn't refused.
    fn push_cable(&mut self, c: MapCable) -> Result<u32, MapFault>
        requires { cable_refusal self.old c ≡ None }
        ensures number { IfOk result (λ k. k ≡ length self.old.cables) }
        ensures added { OnOk result (self.new ≡ with_cable self.old c) }
        ensures memory { IfErr result (λ e. e ≡ MapFault.NoMemory) }
        ensures unchanged { OnErr result (self.new ≡ self.old) }
    {
        match self.add_new_cable(c) {
            Ok(number) => Ok(number),
            Err(_) => Err(MapFault::NoMemory),
        }
    }

    // Why a host is refused.
    fn host_fault(&self, h: u16) -> Option<MapFault>
        ensures { result ≡ host_refusal self.now h }
    {
        if self.has_host(h) {
            Some(MapFault::HostTaken)
        } else if is_full(self.vertices.vertices().len()) {
            Some(MapFault::Full)
        } else {
            None
        }
    }

    // Why a cable is refused.
    fn cable_fault(&self, c: MapCable) -> Option<MapFault>
        ensures { result ≡ cable_refusal self.now c }
    {
        let vertices = self.vertices.vertices().len();
        if c.v as usize >= vertices || c.w as usize >= vertices {
            Some(MapFault::NoVertex)
        } else if !self.may_have(c.v, c.p) || !self.may_have(c.w, c.q) {
            Some(MapFault::PortRange)
        } else if c.v == c.w && !is_close(c.p, c.q) {
            Some(MapFault::PortRange)
        } else if self.is_used(c) {
            Some(MapFault::PortUsed)
        } else if is_full(self.cabling.cables().len()) {
            Some(MapFault::Full)
        } else {
            None
        }
    }

    // Whether the host stands in the map.
    fn has_host(&self, h: u16) -> bool
        ensures { result ≡ has_host self.now h }
    {
        self.vertices.find(h).is_some()
    }

    // Whether the vertex may have the port.
    fn may_have(&self, v: u32, p: i8) -> bool
        ensures same { result ≡ may_have self.now record { v = v; p = p } }
        ensures in_range { result ≡ true → IsTurn p }
    {
        is_port(p) && (self.is_switch(v) || p == 0) && self.cabling.are_near(v, p)
    }

    // Whether the vertex is a switch.
    fn is_switch(&self, v: u32) -> bool
        ensures { result ≡ is_switch_vertex self.now v }
    {
        match self.vertices.vertices().get(v as usize) {
            Some(MapVertex::Switch(_)) => true,
            _ => false,
        }
    }

    // Whether one of the ports has a cable, or both are one.
    fn is_used(&self, c: MapCable) -> bool
        ensures { result ≡ is_used self.now c }
    {
        self.cabling.far(c.v, c.p).is_some()
            || self.cabling.far(c.w, c.q).is_some()
            || (c.v == c.w && c.p == c.q)
    }
}

// Whether no number of 32 bits is left for one more.
fn is_full(count: usize) -> bool
    ensures { result ≡ fullness count }
{
    count >= u32::MAX as usize
}
