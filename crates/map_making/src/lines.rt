//! The line of a map, and the lines of the map itself after it.

ghost use Rattle.std.specs.Prelude.{◌≡◌, ◌∷◌, [], IfOk};
ghost use Rattle.fab_report.specs.Printed.{printed_of};
ghost use Rattle.fab_report.specs.There.{IsHost, AreThere};
ghost use Rattle.map_canon.specs.Printing.{AreOfFabric};
ghost use Rattle.run_defs.specs.Output.{OneLine, MapLines};
ghost use Rattle.map_making.specs.Lines.{map_lines};

use crate::making::MadeMap;
use fab_report::Printed;
use fabric_map::FabricMap;
use map_canon::print_map;
use port_graph::Fabric;
use run_defs::{Line, MapWords};
use std::alloc::{AllocError, Global};

/// The line of a map from a host, whose asks injected so many packets, and the lines of the map itself, unless the
/// tree had too many nodes.
pub fn print_made(
    alloc: Global,
    f: &Fabric,
    host: u16,
    m: &MadeMap,
    packets: u64,
) -> Result<Printed, AllocError>
    requires there { IsHost f.now host }
    requires hosts { AreOfFabric f.now m.now.map }
    ensures { IfOk result (λ p. p ≡ printed_of f.now (map_lines host m.now packets)) }
{
    let line = Line::Map {
        host,
        words: m.words,
        asks: m.asks,
        packets,
    };
    match m.words {
        MapWords::IncompleteNodes => Printed::line(alloc, &line, f),
        MapWords::Complete | MapWords::Doubtful(_) | MapWords::IncompleteDepth => {
            print_with_map(alloc, &line, &m.map, f)
        }
    }
}

/// A line, and the lines of a map after it.
#[tactic(auto, using(crate::proofs::MapLines::map_followed))]
pub(crate) fn print_with_map(
    alloc: Global,
    line: &Line,
    m: &FabricMap,
    f: &Fabric,
) -> Result<Printed, AllocError>
    requires there { AreThere f.now line.now }
    requires hosts { AreOfFabric f.now m.now }
    ensures { IfOk result (λ p. p ≡ printed_of f.now (OneLine line.now ∷ MapLines m.now ∷ [])) }
{
    let mut printed = Printed::line(alloc, line, f)?;
    let lines = print_map(alloc, m, f)?;
    printed.follow(&lines)?;
    Ok(printed)
}
