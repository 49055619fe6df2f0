//! The rules of replicates, applied to everything until nothing is new: a plain closure, to compare classes with.

use std::alloc::{AllocError, Global};

/// Port p of the first node is port p + k of the second. Node 0 is the mapper's host, each other node the walk at its
/// number less one.
pub(crate) type Pair = (usize, usize, i16);

/// All pairs of replicates among the mapper's host and these walks, each of which found a host of this address or a
/// switch.
pub(crate) fn replicates(
    alloc: Global,
    walks: &[&[i8]],
    hosts: &[Option<u16>],
) -> Result<Vec<Pair>, AllocError> {
    let mut pairs = Vec::new(alloc);
    for u in 0..hosts.len() {
        for v in 0..hosts.len() {
            if u == v || (hosts[u].is_some() && hosts[u] == hosts[v]) {
                add(&mut pairs, (u, v, 0))?;
            }
        }
    }
    // Each round but the last adds a pair.
    for _ in 0..hosts.len().saturating_mul(hosts.len()) {
        let known = pairs.len();
        follow(alloc, walks, &mut pairs)?;
        if pairs.len() == known {
            break;
        }
    }
    Ok(pairs)
}

/// Whether two lists, in which no pair stands twice, have the same pairs.
pub(crate) fn are_the_same(pairs: &[Pair], plain: &[Pair]) -> bool {
    if pairs.len() != plain.len() {
        return false;
    }
    for pair in plain {
        if !pairs.contains(pair) {
            return false;
        }
    }
    true
}

// One round of the rules.
fn follow(alloc: Global, walks: &[&[i8]], pairs: &mut Vec<Pair>) -> Result<(), AllocError> {
    let known = pairs.to_vec(alloc)?;
    for (u, v, k) in &known {
        add(pairs, (*v, *u, k.wrapping_neg()))?;
        for (w, x, l) in &known {
            if v == w {
                add(pairs, (*u, *x, k.wrapping_add(*l)))?;
            }
        }
        go_on(walks, pairs, (*u, *v, *k))?;
    }
    Ok(())
}

// What stands behind the ports of a pair.
fn go_on(walks: &[&[i8]], pairs: &mut Vec<Pair>, (u, v, k): Pair) -> Result<(), AllocError> {
    for p in -15i16..16 {
        if let (Some((x, i)), Some((y, j))) = (
            leads(walks, u, p),
            leads(walks, v, p.wrapping_add(k)),
        ) {
            add(pairs, (x, y, j.wrapping_sub(i)))?;
        }
    }
    Ok(())
}

fn add(pairs: &mut Vec<Pair>, pair: Pair) -> Result<(), AllocError> {
    if !pairs.contains(&pair) {
        pairs.push(pair)?;
    }
    Ok(())
}

// The node and the port to which a port of a node leads.
fn leads(walks: &[&[i8]], node: usize, port: i16) -> Option<(usize, i16)> {
    match (node.checked_sub(1), port) {
        (None, 0) => node_of(walks, &[], 0),
        (None, _) => None,
        (Some(place), 0) => parent(walks, place),
        (Some(place), _) => child(walks, place, port),
    }
}

// The node of a walk, with a port.
fn node_of(walks: &[&[i8]], turns: &[i8], port: i16) -> Option<(usize, i16)> {
    match walks.iter().position(|w| *w == turns) {
        Some(place) => Some((place.saturating_add(1), port)),
        None => None,
    }
}

// What stands in front of a walk's node: the walk without its last turn, and before the first walk the mapper's host.
fn parent(walks: &[&[i8]], place: usize) -> Option<(usize, i16)> {
    match walks.get(place)?.split_last() {
        Some((last, front)) => node_of(walks, front, i16::from(*last)),
        None => Some((0, 0)),
    }
}

// The walk with one turn more.
fn child(walks: &[&[i8]], place: usize, port: i16) -> Option<(usize, i16)> {
    let walk = walks.get(place)?;
    match walks.iter().position(|w| is_onward(w, walk, port)) {
        Some(next) => Some((next.saturating_add(1), 0)),
        None => None,
    }
}

fn is_onward(longer: &[i8], walk: &[i8], port: i16) -> bool {
    match longer.split_last() {
        Some((last, front)) => front == walk && i16::from(*last) == port,
        None => false,
    }
}
