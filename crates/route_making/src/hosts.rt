//! The hosts of a map by address.

ghost use Rattle.std.specs.Prelude.{◌≡◌, nat_eq, IfOk};
ghost use Rattle.std.specs.List.{list_any};
ghost use Rattle.map_defs.specs.NetMap.{hosts_of};
ghost use Rattle.route_making.specs.Listed.{map_hosts_below};

use fabric_map::FabricMap;
use std::alloc::{AllocError, Global};

/// The hosts of a map in a world of so many hosts, by address. Each is looked up once.
pub fn hosts_of_map(alloc: Global, m: &FabricMap, hosts: u16) -> Result<Vec<u16>, AllocError>
    ensures { IfOk result (λ list. list.items ≡ map_hosts_below hosts m.now) }
{
    let mut list = Vec::new(alloc);
    for h in 0..hosts {
        if has_host(m, h) {
            list.push(h)?;
        }
    }
    Ok(list)
}

// Whether a host stands in the map.
fn has_host(m: &FabricMap, h: u16) -> bool
    ensures { result ≡ list_any (nat_eq h) (hosts_of m.now.vertices) }
{
    m.vertex_of_host(h).is_some()
}
