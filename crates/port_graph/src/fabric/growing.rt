//! Growing a fabric by a host, a switch or a cable. A refused call changes nothing.

ghost use Rattle.std.specs.Prelude.{◌≡◌, length, None, IfOk, IfErr, OnOk, OnErr};
ghost use Rattle.net_defs.specs.Refusal.{Refuses};
ghost use Rattle.net_defs.specs.Building.{host_refusal, switch_refusal, cable_refusal, with_host, with_switch};
ghost use Rattle.net_defs.specs.Building.{with_cable, taken, is_used};
ghost use Rattle.net_defs.specs.Network.{has_port, has_vertex, is_port_count as port_count_test};

use super::Fabric;
use net_defs::{End, GraphFault, Vertex};
use std::alloc::Global;

const MAX_HOSTS: u16 = 128;

const MAX_SWITCHES: u16 = 64;

impl Fabric {
    /// Adds a host, and answers its address. Refused in this order: `NameTaken`, `Full` at 128 hosts.
    pub fn add_host(&mut self, alloc: Global, name: &[u8]) -> Result<u16, GraphFault>
        ensures address { IfOk result (λ h. h ≡ length self.old.hosts) }
        ensures added { OnOk result (self.new ≡ with_host self.old name.now) }
        ensures refused { Refuses (host_refusal self.old name.now) GraphFault.NoMemory result }
        ensures unchanged { OnErr result (self.new ≡ self.old) }
    {
        match self.host_fault(name) {
            Some(fault) => Err(fault),
            None => self.push_host(alloc, name),
        }
    }

    /// Adds a switch, and answers its number. Refused in this order: `PortRange` where it has not 4, 8 or 16 ports,
    /// `NameTaken`, `Full` at 64 switches.
    pub fn add_switch(&mut self, alloc: Global, name: &[u8], ports: u8) -> Result<u16, GraphFault>
        ensures number { IfOk result (λ s. s ≡ length self.old.switches) }
        ensures added { OnOk result (self.new ≡ with_switch self.old name.now ports) }
        ensures refused { Refuses (switch_refusal self.old name.now ports) GraphFault.NoMemory result }
        ensures unchanged { OnErr result (self.new ≡ self.old) }
    {
        match self.switch_fault(name, ports) {
            Some(fault) => Err(fault),
            None => self.push_switch(alloc, name, ports),
        }
    }

    /// Joins two ports, and answers the cable's number. Refused in this order: `NoVertex` of a, of b, `PortRange` of
    /// a, of b, `PortUsed` where one has a cable or both are one port.
    pub fn add_cable(&mut self, a: End, b: End) -> Result<u16, GraphFault>
        ensures number { IfOk result (λ k. k ≡ length self.old.cables) }
        ensures added { OnOk result (self.new ≡ with_cable self.old a b) }
        ensures refused { Refuses (cable_refusal self.old a b) GraphFault.NoMemory result }
        ensures unchanged { OnErr result (self.new ≡ self.old) }
    {
        match self.cable_fault(a, b) {
            Some(fault) => Err(fault),
            None => self.push_cable(a, b),
        }
    }

    // Adds a host that isn't refused.
    fn push_host(&mut self, alloc: Global, name: &[u8]) -> Result<u16, GraphFault>
        requires { host_refusal self.old name.now ≡ None }
        ensures address { IfOk result (λ h. h ≡ length self.old.hosts) }
        ensures added { OnOk result (self.new ≡ with_host self.old name.now) }
        ensures memory { IfErr result (λ e. e ≡ GraphFault.NoMemory) }
        ensures unchanged { OnErr result (self.new ≡ self.old) }
    {
        let address = self.hosts();
        if self.hosts.push(alloc, name, 1).is_err() {
            return Err(GraphFault::NoMemory);
        }
        Ok(address)
    }

    // Adds a switch that isn't refused.
    fn push_switch(&mut self, alloc: Global, name: &[u8], ports: u8) -> Result<u16, GraphFault>
        requires { switch_refusal self.old name.now ports ≡ None }
        ensures number { IfOk result (λ s. s ≡ length self.old.switches) }
        ensures added { OnOk result (self.new ≡ with_switch self.old name.now ports) }
        ensures memory { IfErr result (λ e. e ≡ GraphFault.NoMemory) }
        ensures unchanged { OnErr result (self.new ≡ self.old) }
    {
        let number = self.switches();
        if self.switches.push(alloc, name, ports).is_err() {
            return Err(GraphFault::NoMemory);
        }
        Ok(number)
    }

    // Adds a cable that isn't refused.
    fn push_cable(&mut self, a: End, b: End) -> Result<u16, GraphFault>
        requires { cable_refusal self.old a b ≡ None }
        ensures number { IfOk result (λ k. k ≡ length self.old.cables) }
        ensures added { OnOk result (self.new ≡ with_cable self.old a b) }
        ensures memory { IfErr result (λ e. e ≡ GraphFault.NoMemory) }
        ensures unchanged { OnErr result (self.new ≡ self.old) }
    {
        let number = self.cables();
        if self.cabling.push(a, b).is_err() {
            return Err(GraphFault::NoMemory);
        }
        Ok(number)
    }

    // Why a host is refused.
    fn host_fault(&self, name: &[u8]) -> Option<GraphFault>
        ensures { result ≡ host_refusal self.now name.now }
    {
        if self.is_taken(name) {
            Some(GraphFault::NameTaken)
        } else if self.hosts() >= MAX_HOSTS {
            Some(GraphFault::Full)
        } else {
            None
        }
    }

    // Why a switch is refused.
    fn switch_fault(&self, name: &[u8], ports: u8) -> Option<GraphFault>
        ensures { result ≡ switch_refusal self.now name.now ports }
    {
        if !is_port_count(ports) {
            Some(GraphFault::PortRange)
        } else if self.is_taken(name) {
            Some(GraphFault::NameTaken)
        } else if self.switches() >= MAX_SWITCHES {
            Some(GraphFault::Full)
        } else {
            None
        }
    }

    // Why a cable is refused.
    fn cable_fault(&self, a: End, b: End) -> Option<GraphFault>
        ensures { result ≡ cable_refusal self.now a b }
    {
        if !self.has_vertex(a.v) || !self.has_vertex(b.v) {
            Some(GraphFault::NoVertex)
        } else if !self.has_port(a) || !self.has_port(b) {
            Some(GraphFault::PortRange)
        } else if self.is_used(a, b) {
            Some(GraphFault::PortUsed)
        } else {
            None
        }
    }

    // Whether a host or a switch has the name.
    fn is_taken(&self, name: &[u8]) -> bool
        ensures { result ≡ taken self.now name.now }
    {
        self.find(name).is_some()
    }

    // Whether one of the ports has a cable, or both are one.
    fn is_used(&self, a: End, b: End) -> bool
        ensures { result ≡ is_used self.now a b }
    {
        self.far(a.v, a.p).is_some() || self.far(b.v, b.p).is_some() || a == b
    }

    // Whether the fabric has the vertex.
    fn has_vertex(&self, v: Vertex) -> bool
        ensures { result ≡ has_vertex self.now v }
    {
        match v {
            Vertex::Host(h) => h < self.hosts(),
            Vertex::Switch(s) => s < self.switches(),
        }
    }

    // Whether the fabric has the vertex, and the vertex the port.
    fn has_port(&self, e: End) -> bool
        ensures { result ≡ has_port self.now e }
    {
        e.p < self.ports(e.v)
    }
}

// Whether a switch may have so many ports.
fn is_port_count(ports: u8) -> bool
    ensures { result ≡ port_count_test ports }
{
    ports == 4 || ports == 8 || ports == 16
}
