//! The map of circuit links, and what is printed of it.

ghost use Rattle.std.specs.Prelude.{◌≡◌, ◌≤◌, IfOk};
ghost use Rattle.circ_map.specs.Mapping.{IsMappedBy};
ghost use Rattle.fab_report.specs.Printed.{printed_of};
ghost use Rattle.fab_report.specs.There.{IsHost};
ghost use Rattle.map_canon.specs.Printing.{AreOfFabric};
ghost use Rattle.map_making.specs.Circuit.{circuit_pieces, IsCircuitPrinted};

use crate::lines::print_with_map;
use circ_map::{CircEnd, CircFabric, CircMapped, map_circuit};
use fab_report::Printed;
use port_graph::Fabric;
use run_defs::Line;
use std::alloc::{AllocError, Global};

/// Asks the circuit links of a fabric from a host, to a depth of so many cables: the number of the asks with the
/// lines of the circuit map, or the number alone where the tree has too many nodes.
///
/// Nothing is injected, and the fabric is only read. Where the depth is at least the most cables in a return walk of
/// a path list of the core, the map is the core; no map over circuit links certifies itself.
#[tactic(auto, using(crate::proofs::CircuitLinks::circuit_told))]
pub fn print_circuit(alloc: Global, f: &Fabric, host: u16, depth: u8) -> Result<Printed, AllocError>
    requires there { IsHost f.now host }
    requires shallow { depth ≤ 32 }
    ensures { IfOk result (λ p. IsCircuitPrinted f.now host depth p) }
{
    let mapped = make_circuit(alloc, f, host, depth)?;
    circuit_text(alloc, f, host, depth, &mapped)
}

// The map of the circuit links, whose hosts are hosts of the fabric.
#[tactic(auto, using(crate::proofs::CircuitLinks::host_there))]
fn make_circuit(alloc: Global, f: &Fabric, host: u16, depth: u8) -> Result<CircMapped, AllocError>
    requires there { IsHost f.now host }
    requires shallow { depth ≤ 32 }
    ensures mapped { IfOk result (λ m. IsMappedBy f.now host depth m.map m.asks m.end) }
    ensures hosts { IfOk result (λ m. AreOfFabric f.now m.map) }
{
    let _count = f.hosts();
    let mut p = CircFabric::new(f, host);
    map_circuit(alloc, &mut p, depth)
}

// The line of a map of circuit links, and its map unless the tree had too many nodes.
fn circuit_text(
    alloc: Global,
    f: &Fabric,
    host: u16,
    depth: u8,
    m: &CircMapped,
) -> Result<Printed, AllocError>
    requires there { IsHost f.now host }
    requires hosts { AreOfFabric f.now m.now.map }
    ensures { IfOk result (λ p. p ≡ printed_of f.now (circuit_pieces host depth m.now.map m.now.asks m.now.end)) }
{
    let asks = m.asks;
    match m.end {
        CircEnd::Whole => { print_with_map(alloc, &Line::Circuit { host, depth, asks }, &m.map, f) }
        CircEnd::Nodes => Printed::line(alloc, &Line::CircuitNodes { host, asks }, f),
    }
}
