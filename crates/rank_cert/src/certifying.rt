//! The ranks of all channels of a map.

ghost use Rattle.std.specs.Prelude.{◌≡◌, ◌<◌, ◌/◌, ◌++◌, length, option_to_list, IfOk, OnOk};
ghost use Rattle.std.specs.List.{AllByRecursion};
ghost use Rattle.map_defs.specs.Orientation.{IsOrder};
ghost use Rattle.map_defs.specs.Ranks.{ranks_of};
ghost use Rattle.rank_cert.specs.Listing.{entry_at, rank_between};

use crate::crossings::{MAX_PORT, PORTS};
use crate::ranks::Ranks;
use fabric_map::FabricMap;
use map_defs::RankEntry;
use std::alloc::{AllocError, Global};

/// The ranks by an order of the vertices, which has each number below their count once: by vertex, then by port. With
/// n vertices an up channel has the rank n - 1 less the place of its tail, a down channel n more than that place.
pub fn certify(alloc: Global, m: &FabricMap, order: &[u32]) -> Result<Ranks, AllocError>
    requires { IsOrder order.now (length m.now.vertices) }
    ensures { IfOk result (λ k. k ≡ ranks_of m.now order.now) }
{
    let _ = m.vertices();
    let mut entries = Vec::new(alloc);
    for k in 0..PORTS * order.len() {
        push_some(&mut entries, entry_at(m, order, k))?;
    }
    let ranks = Ranks::new(entries);
    Ok(ranks)
}

// Adds an entry, if there is one.
fn push_some(entries: &mut Vec<RankEntry>, entry: Option<RankEntry>) -> Result<(), AllocError>
    ensures { OnOk result (entries.new.items ≡ entries.old.items ++ option_to_list entry) }
{
    if let Some(entry) = entry {
        entries.push(entry)?;
    }
    Ok(())
}

// The entry of the channel that leaves by the port at a place.
fn entry_at(m: &FabricMap, order: &[u32], k: usize) -> Option<RankEntry>
    requires order { IsOrder order.now (length m.now.vertices) }
    requires vertex { k / 31 < length order.now }
    ensures { result ≡ entry_at m.now order.now k }
{
    let _ = m.vertices();
    let v = (k / PORTS) as u32;
    let p = (k % PORTS) as i8 - MAX_PORT;
    match m.map_far(v, p) {
        None => None,
        Some((w, _)) => Some(RankEntry {
            v,
            p,
            rank: rank(order, v as usize, w as usize),
        }),
    }
}

// The rank of a channel from one vertex to another.
fn rank(order: &[u32], v: usize, w: usize) -> u64
    requires places { AllByRecursion (λ k. k < length order.now) order.now }
    requires tail { v < length order.now }
    requires head { w < length order.now }
    ensures { result ≡ rank_between order.now v w }
{
    let count = order.len() as u64;
    let place = u64::from(order[v]);
    if order[w] < order[v] {
        count - 1 - place
    } else {
        count + place
    }
}
