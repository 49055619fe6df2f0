//! The hosts of a map by address.

ghost use Rattle.std.specs.Prelude.{◌≡◌, ◌≢◌, [], nat_eq, IfOk, OnErr};
ghost use Rattle.std.specs.List.{list_any};
ghost use Rattle.map_defs.specs.NetMap.{hosts_of};
ghost use Rattle.answer_defs.specs.Answer.{hosts_in};

use fabric_map::FabricMap;
use port_graph::Fabric;
use std::alloc::{AllocError, Global};
use std::marker::Model;

/// Hosts by rising address. Contracts see the list of them.
#[derive(Drop)]
pub struct Hosts {
    hosts: Vec<u16>,
}

impl Model for Hosts {
    ghost use Rattle.std.specs.Prelude.{List, ℕ};

    ghost Value = { List ℕ };

    ghost view = { λ h. h.hosts.items };
}

impl Hosts {
    /// The addresses.
    pub fn list(&self) -> &[u16]
        ensures { result.now ≡ self.now }
    {
        &self.hosts
    }
}

/// The hosts of a fabric that a map has, by address. Memory may run out only where there is one.
pub fn hosts_in(alloc: Global, f: &Fabric, map: &FabricMap) -> Result<Hosts, AllocError>
    ensures hosts { IfOk result (λ h. h ≡ hosts_in f.now map.now) }
    ensures memory { OnErr result (hosts_in f.now map.now ≢ []) }
{
    let mut hosts = Vec::new(alloc);
    for h in 0..f.hosts() {
        if has_host(map, h) {
            hosts.push(h)?;
        }
    }
    Ok(Hosts { hosts })
}

// Whether a host stands in the map.
fn has_host(map: &FabricMap, h: u16) -> bool
    ensures { result ≡ list_any (nat_eq h) (hosts_of map.now.vertices) }
{
    map.vertex_of_host(h).is_some()
}
