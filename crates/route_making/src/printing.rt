//! The lines of routes and ranks.

ghost use Rattle.std.specs.Prelude.{◌≡◌, ◌<◌, ◌^◌, ◌++◌, ◌∷◌, [], length, flat_map, slice_get, IfOk, OnOk};
ghost use Rattle.map_canon.specs.Printing.{AreOfFabric, IsOfFabric};
ghost use Rattle.run_defs.specs.LineText.{line_text};
ghost use Rattle.run_defs.specs.Run.{rank_line, route_line, vertex_in};
ghost use Rattle.run_defs.specs.declared.line.Line.TheVariants.{Routes, EndRoutes};
ghost use Rattle.run_defs.specs.declared.figure.Figure.TheVariants.{Routed};
ghost use Rattle.fab_report.specs.There.{AreThere};
ghost use Rattle.route_making.specs.Listed.{AreBetweenHosts};

use fab_report::{Figure, Printed, print_line_onto, print_route_onto};
use fabric_map::{FabricMap, MapVertex};
use map_defs::RankEntry;
use net_defs::Route;
use port_graph::Fabric;
use run_defs::Line;
use std::alloc::{AllocError, Global};

/// The number of the routes, each route, each rank, and the end.
pub(crate) fn routes_text(
    alloc: Global,
    m: &FabricMap,
    f: &Fabric,
    routes: &[Route],
    ranks: &[RankEntry],
) -> Result<Printed, AllocError>
    requires hosts { AreOfFabric f.now m.now }
    requires between { AreBetweenHosts f.now routes.now }
    requires few { length routes.now < 2 ^ 32 }
    ensures { IfOk result (λ p. p ≡ record {
      text = line_text f.now (Routes (length routes.now)) ++ (flat_map (λ r. line_text f.now (route_line r)) routes.now
          ++ (flat_map (λ k. line_text f.now (rank_line m.now k)) ranks.now ++ line_text f.now EndRoutes));
      figures = Routed (length routes.now) ∷ [];
    }) }
{
    let count = routes.len() as u32;
    let mut text = Vec::new(alloc);
    print_line_onto(&mut text, &Line::Routes(count), f)?;
    append_routes(&mut text, f, routes)?;
    append_ranks(&mut text, m, f, ranks)?;
    print_line_onto(&mut text, &Line::EndRoutes, f)?;
    Ok(Printed::with(text, Figure::Routed(count)))
}

// A line for each route.
fn append_routes(text: &mut Vec<u8>, f: &Fabric, routes: &[Route]) -> Result<(), AllocError>
    requires { AreBetweenHosts f.now routes.now }
    ensures { OnOk result (text.new.items ≡ text.old.items
        ++ flat_map (λ r. line_text f.now (route_line r)) routes.now) }
{
    for r in routes {
        print_route_onto(text, r, f)?;
    }
    Ok(())
}

// A line for each rank.
fn append_ranks(
    text: &mut Vec<u8>,
    m: &FabricMap,
    f: &Fabric,
    ranks: &[RankEntry],
) -> Result<(), AllocError>
    requires { AreOfFabric f.now m.now }
    ensures { OnOk result (text.new.items ≡ text.old.items
        ++ flat_map (λ k. line_text f.now (rank_line m.now k)) ranks.now) }
{
    for k in ranks {
        append_rank(text, m, f, *k)?;
    }
    Ok(())
}

// The line of a rank.
fn append_rank(
    text: &mut Vec<u8>,
    m: &FabricMap,
    f: &Fabric,
    k: RankEntry,
) -> Result<(), AllocError>
    requires { AreThere f.now (rank_line m.now k) }
    ensures { OnOk result (text.new.items ≡ text.old.items ++ line_text f.now (rank_line m.now k)) }
{
    print_line_onto(text, &rank_line(m, k), f)
}

// A rank by the vertex of its channel.
fn rank_line(m: &FabricMap, k: RankEntry) -> Line
    ensures { result ≡ rank_line m.now k }
{
    Line::Rank {
        v: vertex_at(m, k.v),
        p: k.p,
        rank: k.rank,
    }
}

// The vertex of a number; a switch stands for none.
fn vertex_at(m: &FabricMap, v: u32) -> MapVertex
    ensures { result ≡ vertex_in (slice_get m.now.vertices v) }
{
    match m.vertices().get(v as usize) {
        Some(vertex) => *vertex,
        None => MapVertex::Switch(0),
    }
}
