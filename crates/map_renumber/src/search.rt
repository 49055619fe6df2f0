//! A search through a map by levels, from vertex 0, at each vertex by turns from its entry port: vertices are found
//! by their least walks.

ghost use Rattle.std.specs.Prelude.{◌≡◌, ◌+◌, ◌+ℤ◌, ◌<◌, ℕ, ℤ, true, false, length, slice_get, Some, IfOk, OnOk};
ghost use Rattle.net_defs.specs.Turn.{IsTurn};
ghost use Rattle.map_defs.specs.NetMap.{host_of_vertex, is_switch_vertex};
ghost use Rattle.map_renumber.specs.Search.{GoesOn, GoesOnFrom, IsSearchTo, port_of_pair, turn_at};

use fabric_map::{FabricMap, MapVertex};
use std::alloc::{AllocError, Global};

// The ports of one vertex.
const PORTS: usize = 31;

// The greatest turn; the least is its negative.
const MAX_TURN: i8 = 15;

/// The vertices in the order of their least walks, each with the port by which that walk enters it, and the number of
/// each vertex.
#[derive(Drop)]
pub(crate) struct Search {
    pub(crate) found: Vec<(u32, i8)>,
    pub(crate) numbers: Vec<Option<u32>>,
}

/// Finds all vertices that walks from vertex 0 lead to, which is a host.
pub(crate) fn searched(alloc: Global, m: &FabricMap) -> Result<Search, AllocError>
    requires { (h : ℕ) × (host_of_vertex m.now 0 ≡ Some h) }
    ensures { IfOk result (λ s. IsSearchTo m.now s.found.items s.numbers.items (length m.now.vertices) 0) }
{
    let mut search = begun(alloc, m)?;
    for next in 0..m.vertices().len() {
        search_from(m, &mut search, next)?;
    }
    Ok(search)
}

// Vertex 0 alone is found.
fn begun(alloc: Global, m: &FabricMap) -> Result<Search, AllocError>
    requires { 0 < length m.now.vertices }
    ensures { IfOk result (λ s. IsSearchTo m.now s.found.items s.numbers.items 0 0) }
{
    let mut numbers = vec![in alloc; None; m.vertices().len()]?;
    let mut found = Vec::new(alloc);
    numbers[0] = Some(0);
    found.push((0, 0))?;
    Ok(Search { found, numbers })
}

// Goes on from the vertex of a number, or stops there.
fn search_from(m: &FabricMap, search: &mut Search, next: usize) -> Result<(), AllocError>
    requires host { (h : ℕ) × (host_of_vertex m.now 0 ≡ Some h) }
    requires begun { IsSearchTo m.now search.old.found.items search.old.numbers.items next 0 }
    ensures { OnOk result (IsSearchTo m.now search.new.found.items search.new.numbers.items (next + 1) 0) }
{
    if !goes_on(m, search, next) {
        return Ok(());
    }
    for place in 0..PORTS {
        find(m, search, next, place)?;
    }
    Ok(())
}

// Whether the search goes on from the vertex of a number: a host other than vertex 0 leads nowhere.
fn goes_on(m: &FabricMap, search: &Search, next: usize) -> bool
    ensures yes { result ≡ true → GoesOnFrom m.now search.now.found.items next }
    ensures no { result ≡ false → (d : ℕ × ℤ) → slice_get search.now.found.items next ≡ Some d
        → GoesOn m.now next (port_of_pair d) → ⊥ }
{
    match search.found.get(next) {
        Some(_) if next == 0 => true,
        Some(entry) => is_switch(m, entry.0),
        None => false,
    }
}

// Whether a vertex is a switch.
fn is_switch(m: &FabricMap, v: u32) -> bool
    ensures { result ≡ is_switch_vertex m.now v }
{
    match m.vertices().get(v as usize) {
        Some(MapVertex::Switch(_)) => true,
        _ => false,
    }
}

// Finds the vertex behind a port, where it is new.
fn find(m: &FabricMap, search: &mut Search, next: usize, place: usize) -> Result<(), AllocError>
    requires host { (h : ℕ) × (host_of_vertex m.now 0 ≡ Some h) }
    requires goes_on { GoesOnFrom m.now search.old.found.items next }
    requires place { place < 31 }
    requires begun { IsSearchTo m.now search.old.found.items search.old.numbers.items next place }
    ensures search { OnOk result (IsSearchTo m.now search.new.found.items search.new.numbers.items next (place + 1)) }
    ensures goes_on { OnOk result (GoesOnFrom m.now search.new.found.items next) }
{
    let _ = m.vertices();
    let (v, p) = search.found[next];
    let Some(e) = m.map_far(v, turned(p, place)) else {
        return Ok(());
    };
    if search.numbers[e.0 as usize].is_none() {
        let number = search.found.len() as u32;
        search.found.push(e)?;
        search.numbers[e.0 as usize] = Some(number);
    }
    Ok(())
}

// The port to which the turn of a place leads.
fn turned(p: i8, place: usize) -> i8
    requires port { IsTurn p }
    requires place { place < 31 }
    ensures { result ≡ p +ℤ turn_at place }
{
    p + (place as i8 - MAX_TURN)
}
