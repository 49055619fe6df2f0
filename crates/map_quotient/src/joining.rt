//! The cables of a map, from the walks of a journal: each walk shows one, to the node that it reached from the
//! node in front.

ghost use Rattle.std.specs.Prelude.{◌≡◌, ℕ, ◌+◌, ◌<◌, ◌^◌, ℤ, List, length, slice_get, Some, None, IfSome, OnOk};
ghost use Rattle.map_quotient.specs.Numbering.{IsVertexOf};
ghost use Rattle.net_defs.specs.Turn.{IsTurn};
ghost use Rattle.replicate_merge.specs.Nodes.{nodes_of};
ghost use Rattle.map_defs.specs.NetMap.{first_end, map_far};
ghost use Rattle.fabric_map.specs.Growing.{cable_refusal};
ghost use Rattle.map_quotient.specs.Joining.{TellsCable, JoinsBelow, HaveVertices, EndInTurns, port_of, cable_between};
ghost use Rattle.map_quotient.specs.Joining.{vertex_at, joined, joined_by, AreTaken};

use crate::cables::add;
use fabric_map::{FabricMap, MapCable};
use probe::WalkIndex;
use replicate_merge::Merged;
use std::alloc::AllocError;

/// Joins in a map what the walks show. The classes have these vertices.
pub(crate) fn join_all(
    map: &mut FabricMap,
    walks: &WalkIndex,
    c: &Merged,
    vertices: &[Option<u32>],
) -> Result<(), AllocError>
    requires few { length walks.now + 1 < 2 ^ 32 }
    requires nodes { nodes_of walks.now ≡ c.now.nodes }
    requires numbered { HaveVertices c.now vertices.now }
    requires turns { EndInTurns walks.now }
    requires taken { AreTaken walks.now c.now vertices.now map.old }
    ensures { OnOk result (JoinsBelow walks.now c.now vertices.now map.old (length walks.now) map.new) }
{
    let mut likely = 0;
    for at in 0..walks.len() {
        let told = told_cable(walks, c, vertices, at, &mut likely);
        join_told(map, told)?;
    }
    Ok(())
}

// The cable to the node of a walk. The walk in front is likely to stand where that of the walk before stands.
fn told_cable(
    walks: &WalkIndex,
    c: &Merged,
    vertices: &[Option<u32>],
    at: usize,
    likely: &mut usize,
) -> Option<MapCable>
    requires few { length walks.now + 1 < 2 ^ 32 }
    requires nodes { nodes_of walks.now ≡ c.now.nodes }
    requires numbered { HaveVertices c.now vertices.now }
    requires turns { EndInTurns walks.now }
    requires there { at < length walks.now }
    ensures { (walk : List ℤ) → slice_get walks.now at ≡ Some walk
        → TellsCable walks.now c.now vertices.now walk (at + 1) result }
{
    let node = (at + 1) as u32;
    let Some((turn, front)) = walks.walk(at).split_last() else {
        return Some(cable_between(c, vertices, 0, 0, node));
    };
    match walks.find_near(front, *likely) {
        Some(at) => {
            *likely = at;
            Some(cable_between(c, vertices, (at + 1) as u32, *turn, node))
        }
        None => None,
    }
}

// The cable between a port of a node, and the port by which another was entered.
fn cable_between(c: &Merged, vertices: &[Option<u32>], m: u32, p: i8, n: u32) -> MapCable
    requires numbered { HaveVertices c.now vertices.now }
    requires from { m < length c.now.nodes }
    requires turn { IsTurn p }
    requires to { n < length c.now.nodes }
    ensures { result ≡ cable_between c.now vertices.now m p n }
{
    let d = port_of(c, vertices, m, p);
    let e = port_of(c, vertices, n, 0);
    MapCable {
        v: d.0,
        p: d.1,
        w: e.0,
        q: e.1,
    }
}

// A port of a node as one of its class's vertex.
fn port_of(c: &Merged, vertices: &[Option<u32>], n: u32, p: i8) -> (u32, i8)
    requires numbered { HaveVertices c.now vertices.now }
    requires there { n < length c.now.nodes }
    requires turn { IsTurn p }
    ensures vertex { result.0 ≡ (port_of c.now vertices.now n p).v }
    ensures port { result.1 ≡ (port_of c.now vertices.now n p).p }
{
    let frame = c.class_of(n);
    (vertex_of(vertices, frame.class), p + frame.offset)
}

// The vertex of a class.
fn vertex_of(vertices: &[Option<u32>], class: u32) -> u32
    requires { (v : ℕ) × IsVertexOf vertices.now class v }
    ensures { result ≡ vertex_at vertices.now class }
{
    vertices[class as usize].unwrap()
}

// Adds a cable that was shown, where there is none yet.
fn join_told(map: &mut FabricMap, told: Option<MapCable>) -> Result<(), AllocError>
    requires { IfSome told (λ x. map_far map.old (first_end x) ≡ None → cable_refusal map.old x ≡ None) }
    ensures { OnOk result (map.new ≡ joined_by map.old told) }
{
    match told {
        Some(cable) => join(map, cable),
        None => Ok(()),
    }
}

// Adds a cable where there is none at its first end. It isn't refused there.
fn join(map: &mut FabricMap, cable: MapCable) -> Result<(), AllocError>
    requires { map_far map.old (first_end cable) ≡ None → cable_refusal map.old cable ≡ None }
    ensures { OnOk result (map.new ≡ joined map.old cable) }
{
    if map.map_far(cable.v, cable.p).is_some() {
        return Ok(());
    }
    add(map, cable)
}
