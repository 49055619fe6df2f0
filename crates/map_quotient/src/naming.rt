//! A map's vertices, from the least nodes of the classes.

ghost use Rattle.std.specs.Prelude.{◌≡◌, ◌<◌, ◌^◌, ◌++◌, length, map, slice_index_or, None, Some, IfOk, OnOk};
ghost use Rattle.journal_defs.specs.Tree.{host_of, nodes};
ghost use Rattle.replicate_merge.specs.Nodes.{nodes_of};
ghost use Rattle.map_quotient.specs.Naming.{bare_map, vertices_of, with_vertex, vertex_refusal};
ghost use Rattle.map_quotient.specs.Naming.{HaveOwnAddresses, addresses_of, found_by};

use fabric_map::{FabricMap, MapFault};
use net_defs::Answer;
use probe::{Journal, WalkIndex};
use std::alloc::{AllocError, Global};

/// The map of these nodes without cables, which end here: hosts by their addresses, all others switches. It has room
/// for a cable a walk.
pub(crate) fn named(
    alloc: Global,
    j: &Journal,
    walks: &WalkIndex,
    least: Vec<u32>,
) -> Result<FabricMap, AllocError>
    requires few { length least.items < 2 ^ 32 }
    requires own { HaveOwnAddresses (addresses_of j.now.host j.now.entries walks.now least.items) }
    requires walked { nodes_of walks.now ≡ nodes j.now.entries }
    ensures { IfOk result (λ m. m ≡ bare_map (vertices_of j.now.host j.now.entries walks.now least.items)) }
{
    named_for(alloc, j, walks, &least)
}

// The same, while they may go on.
fn named_for(
    alloc: Global,
    j: &Journal,
    walks: &WalkIndex,
    least: &[u32],
) -> Result<FabricMap, AllocError>
    requires few { length least.now < 2 ^ 32 }
    requires own { HaveOwnAddresses (addresses_of j.now.host j.now.entries walks.now least.now) }
    requires walked { nodes_of walks.now ≡ nodes j.now.entries }
    ensures { IfOk result (λ m. m ≡ bare_map (vertices_of j.now.host j.now.entries walks.now least.now)) }
{
    let mut map = FabricMap::new(alloc);
    map.reserve(least.len(), walks.len())?;
    let addresses = addresses(alloc, j, walks.len())?;
    for node in least {
        add_vertex(&mut map, address_of(&addresses, j.host(), *node))?;
    }
    Ok(map)
}

// The addresses of all nodes in the journal's order, the mapper's first: none of a switch. They are read off in one
// pass, so no walk is looked for. There is room for so many at once.
fn addresses(alloc: Global, j: &Journal, count: usize) -> Result<Vec<Option<u16>>, AllocError>
    ensures { IfOk result (λ os. os.items ≡ map (host_of j.now.host j.now.entries) (nodes j.now.entries)) }
{
    let mut found = Vec::new(alloc);
    found.push(Some(j.host()))?;
    found.reserve(count)?;
    for e in j.entries() {
        add_found(&mut found, e.answer)?;
    }
    Ok(found)
}

// Adds the address of a node, if an answer found one.
fn add_found(found: &mut Vec<Option<u16>>, answer: Answer) -> Result<(), AllocError>
    ensures { OnOk result (found.new.items ≡ found.old.items ++ found_by answer) }
{
    match answer {
        Answer::Host(h) => found.push(Some(h))?,
        Answer::Switch => found.push(None)?,
        Answer::Nothing => {}
    }
    Ok(())
}

// The address of a node by its number: the mapper's of no node.
fn address_of(addresses: &[Option<u16>], host: u16, node: u32) -> Option<u16>
    ensures { result ≡ slice_index_or addresses.now node (Some host) }
{
    let node = node as usize;
    if node < addresses.len() {
        addresses[node]
    } else {
        Some(host)
    }
}

// Adds a host of this address, or a switch, that isn't refused.
fn add_vertex(map: &mut FabricMap, address: Option<u16>) -> Result<(), AllocError>
    requires { vertex_refusal map.old address ≡ None }
    ensures { OnOk result (map.new ≡ with_vertex map.old address) }
{
    let added = match address {
        Some(h) => map.add_host(h),
        None => map.add_switch(true),
    };
    match added {
        Ok(_) => Ok(()),
        Err(MapFault::NoMemory) => Err(AllocError),
        Err(_) => unreachable!(),
    }
}
