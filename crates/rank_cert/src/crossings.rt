//! The channels of a map by the places of their ports, so that one look finds where a channel leads, and its rank.

ghost use Rattle.std.specs.Prelude.{◌≡◌, ◌<◌, ℕ, List, replicate, pos, ◌-ℤ◌, true, None, Some, IfOk, IfSome};
ghost use Rattle.map_defs.specs.declared.rank.RankEntry.{RankEntry};
ghost use Rattle.map_defs.specs.NetMap.{NetMap, is_switch_vertex};
ghost use Rattle.rank_cert.specs.Listing.{port_at};
ghost use Rattle.rank_cert.specs.Crossing.{AreCrossings, IsCrossing};

use crate::ranks::Ranks;
use fabric_map::{FabricMap, MapVertex};
use std::alloc::{AllocError, Global};

/// The ports that a vertex may have.
pub(crate) const PORTS: usize = 31;

/// The greatest port; the least is its negative.
pub(crate) const MAX_PORT: i8 = 15;

/// A channel that has a rank: with this, and with the port that it enters.
#[derive(Clone, Copy, Debug)]
pub(crate) struct Crossing {
    pub(crate) rank: u64,
    pub(crate) v: u32,
    pub(crate) p: i8,
    /// Whether a switch is entered, so that a turn leads on.
    pub(crate) onward: bool,
}

/// The channels of a map that have these ranks.
pub(crate) fn crossings(
    alloc: Global,
    m: &FabricMap,
    k: &Ranks,
) -> Result<Vec<Option<Crossing>>, AllocError>
    ensures { IfOk result (λ table. AreCrossings m.now k.now table.items) }
{
    let mut table = nones(alloc, PORTS * m.vertices().len())?;
    for entry in k.list() {
        put(&mut table, m, k, entry.v, entry.p);
    }
    Ok(table)
}

// So many places without a channel.
fn nones(alloc: Global, places: usize) -> Result<Vec<Option<Crossing>>, AllocError>
    ensures { IfOk result (λ table. table.items ≡ replicate places None) }
{
    let table = vec![in alloc; None; places]?;
    Ok(table)
}

// Puts the channel that leaves by a port at its place, if the table has the place.
fn put(table: &mut Vec<Option<Crossing>>, m: &FabricMap, k: &Ranks, v: u32, p: i8)
    requires { AreCrossings m.now k.now table.old.items }
    ensures { AreCrossings m.now k.now table.new.items }
{
    if let Some(place) = place_in(v, p, table.len()) {
        table[place] = crossing_of(m, k, v, p);
    }
}

// The channel that leaves by a port, if it has a rank.
fn crossing_of(m: &FabricMap, k: &Ranks, v: u32, p: i8) -> Option<Crossing>
    ensures { IfSome result (IsCrossing m.now k.now record { v = v; p = p }) }
{
    match m.map_far(v, p) {
        None => None,
        Some((w, q)) => match k.rank_of(v, p) {
            None => None,
            Some(rank) => Some(Crossing {
                rank,
                v: w,
                p: q,
                onward: is_switch(m, w),
            }),
        },
    }
}

/// Whether a table has channels of a map alone that have these ranks, each at its place. So it is with the table that
/// was made with the ranks, for the map that they were made for.
pub(crate) fn are_crossings(m: &FabricMap, k: &Ranks, table: &[Option<Crossing>]) -> bool
    ensures { result ≡ true → AreCrossings m.now k.now table.now }
{
    for place in 0..table.len() {
        if !is_right(m, k, place, table[place]) {
            return false;
        }
    }
    true
}

// Whether a place has a channel that leaves by its port, if it has one.
fn is_right(m: &FabricMap, k: &Ranks, place: usize, there: Option<Crossing>) -> bool
    ensures { result ≡ true → IfSome there (IsCrossing m.now k.now (port_at place)) }
{
    match there {
        None => true,
        Some(c) => match port_of(place) {
            None => false,
            Some((v, p)) => is_one(crossing_of(m, k, v, p), c),
        },
    }
}

// Whether a channel is there, and is this one.
fn is_one(there: Option<Crossing>, c: Crossing) -> bool
    ensures { result ≡ true → there ≡ Some c }
{
    match there {
        None => false,
        Some(d) => d.rank == c.rank && d.v == c.v && d.p == c.p && d.onward == c.onward,
    }
}

// The port of a place; none of one that no table has.
fn port_of(place: usize) -> Option<(u32, i8)>
    ensures { IfSome result (λ d. port_at place ≡ record { v = d.0; p = d.1 }) }
{
    match u32::try_from(place / PORTS) {
        Ok(v) => Some((v, (place % PORTS) as i8 - MAX_PORT)),
        Err(_) => None,
    }
}

// Whether a vertex is a switch.
fn is_switch(m: &FabricMap, v: u32) -> bool
    ensures { result ≡ is_switch_vertex m.now v }
{
    match m.vertices().get(v as usize) {
        Some(MapVertex::Switch(_)) => true,
        _ => false,
    }
}

/// The channel that leaves by the port at a place of a vertex. One may be missing in the table.
pub(crate) fn crossing_at(table: &[Option<Crossing>], v: u32, k: usize) -> Option<Crossing>
    requires { k < 31 }
    ensures { (m : NetMap) (ks : List RankEntry) → AreCrossings m ks table.now
        → IfSome result (IsCrossing m ks record { v = v; p = pos k -ℤ pos 15 }) }
{
    let place = PORTS * v as usize + k;
    if place < table.len() {
        table[place]
    } else {
        None
    }
}

// The place of a port in a table of so many places.
fn place_in(v: u32, p: i8, places: usize) -> Option<usize>
    ensures there { IfSome result (λ k. k < places) }
    ensures port { IfSome result (λ k. port_at k ≡ record { v = v; p = p }) }
{
    if p < -MAX_PORT || p > MAX_PORT {
        return None;
    }
    let place = PORTS * v as usize + (p + MAX_PORT) as usize;
    if place < places { Some(place) } else { None }
}
