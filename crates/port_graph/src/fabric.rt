//! A fabric: reading it, growing it, taking cables out, walking over it.

ghost use Rattle.std.specs.Prelude.{◌≡◌, ◌<◌, ◌≤◌, length, slice_get, IsTrue};
ghost use Rattle.net_defs.specs.Network.{empty_network, far, has_port, has_vertex, ports_of, IsFabric};
ghost use Rattle.net_defs.specs.Building.{name_of, vertex_named};
ghost use Rattle.net_defs.specs.Route.{IsEntered};

mod growing;
mod shrinking;
mod walking;

use crate::cabling::Cabling;
use crate::names::Names;
use net_defs::{Cable, End, Vertex};
use std::alloc::Global;
use std::marker::Model;

/// Hosts, switches and cables. Contracts see the `Network` that it stands for.
///
/// Host addresses, switch numbers and cable numbers count from 0 in the order in which they came.
#[derive(Drop)]
pub struct Fabric {
    hosts: Names,
    switches: Names,
    cabling: Cabling,
}

impl Model for Fabric {
    ghost use Rattle.net_defs.specs.Network.{Network, IsFabric};
    ghost use Rattle.port_graph.specs.Named.{network_of};

    ghost Value = { Network };

    ghost view = { λ f. network_of f.hosts f.switches f.cabling };

    ghost invariant = { λ f. IsFabric (network_of f.hosts f.switches f.cabling) };
}

impl Fabric {
    /// The fabric without vertices. It takes no memory.
    pub fn new(alloc: Global) -> Fabric
        ensures { result ≡ empty_network }
    {
        Fabric {
            hosts: Names::new(alloc),
            switches: Names::new(alloc),
            cabling: Cabling::new(alloc),
        }
    }

    /// How many hosts there are.
    pub fn hosts(&self) -> u16
        ensures count { result ≡ length self.now.hosts }
        ensures bound { result ≤ 128 }
        ensures fabric { IsFabric self.now }
    {
        self.hosts.len() as u16
    }

    /// How many switches there are.
    pub fn switches(&self) -> u16
        ensures count { result ≡ length self.now.switches }
        ensures bound { result ≤ 64 }
    {
        self.switches.len() as u16
    }

    /// How many cables there are.
    pub fn cables(&self) -> u16
        ensures count { result ≡ length self.now.cables }
        ensures bound { result ≤ 576 }
    {
        self.cabling.len() as u16
    }

    /// The vertex of a name.
    pub fn find(&self, name: &[u8]) -> Option<Vertex>
        ensures { result ≡ vertex_named self.now name.now }
    {
        match self.hosts.find(name) {
            Some(host) => Some(Vertex::Host(host as u16)),
            None => self
                .switches
                .find(name)
                .map(|switch| Vertex::Switch(switch as u16)),
        }
    }

    /// The name of a vertex.
    pub fn name_of(&self, v: Vertex) -> &[u8]
        requires { IsTrue (has_vertex self.now v) }
        ensures { result.now ≡ name_of self.now v }
    {
        let name = match v {
            Vertex::Host(h) => self.hosts.name_at(usize::from(h)),
            Vertex::Switch(s) => self.switches.name_at(usize::from(s)),
        };
        name.unwrap()
    }

    /// The cable of a number.
    pub fn cable(&self, k: u16) -> Cable
        requires { k < length self.now.cables }
        ensures { slice_get self.now.cables k ≡ Some result }
    {
        self.cabling.get(usize::from(k)).unwrap()
    }

    /// The number of a vertex's ports, which is 0 where the fabric lacks the vertex.
    pub fn ports(&self, v: Vertex) -> u8
        ensures { result ≡ ports_of self.now v }
    {
        match v {
            Vertex::Host(h) => u8::from(usize::from(h) < self.hosts.len()),
            Vertex::Switch(s) => self.switches.ports_at(usize::from(s)).unwrap_or(0),
        }
    }

    /// The port at the other end of the cable at a port; none where there is no such port, or no cable at it.
    pub fn far(&self, v: Vertex, p: u8) -> Option<End>
        ensures end { result ≡ far self.now record { v = v; p = p } }
        ensures there { IsEntered self.now result }
    {
        if p < self.ports(v) {
            self.cabling.far(End { v, p })
        } else {
            None
        }
    }
}
