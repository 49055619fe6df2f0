//! Parts of a set of routes.

ghost use Rattle.std.specs.Prelude.{◌≡◌, ℕ, ◌≤◌, ◌*◌, true, map, take, drop, length, nat_eq, nat_lt};
ghost use Rattle.std.specs.Prelude.{IfOk, IfSome, IsTrue};
ghost use Rattle.std.specs.List.{count_by, filter, list_all};
ghost use Rattle.world_defs.specs.Mapping.{is_part, is_route};
ghost use Rattle.net_defs.specs.RouteSet.{AreRising};
ghost use Rattle.route_install.specs.Collecting.{is_fit};
ghost use Rattle.world_defs.specs.Table.{entries_from, part_for, part_count, part_entries};

use crate::between::{likely_before, walk_between};
use net_defs::{Route, Walk};
use port_graph::RouteSet;
use route_parts::{EntryList, RoutePart, TableEntry};
use std::alloc::{AllocError, Global};

// The most entries of a part.
const PART_SIZE: usize = 8;

/// A part of a host's table, with the set's route back to the mapper. None exactly where there is no such part; the
/// mapper itself has none.
pub fn part_for(
    alloc: Global,
    r: &RouteSet,
    epoch: u32,
    mapper: u16,
    dst: u16,
    part: u8,
) -> Result<Option<RoutePart>, AllocError>
    requires { length (entries_from r.now dst) ≤ 128 }
    ensures value { IfOk result (λ p. (at : ℕ) → p ≡ part_for
        (record { mapper = mapper; epoch = epoch; at = at; routes = r.now }) dst part) }
    ensures by_rules { IfOk result (λ p. IfSome p (λ p. is_part p ≡ true)) }
{
    if dst == mapper {
        return Ok(None);
    }
    let routes = routes_from(r.list(), dst);
    let parts = part_count(routes.len());
    if part >= parts {
        return Ok(None);
    }
    let entries = part_of(routes, part);
    match walk_between(r, dst, mapper) {
        Some(back) => Ok(Some(RoutePart {
            epoch,
            mapper,
            dst,
            part,
            parts,
            back: copied(alloc, back)?,
            entries: entries_of(alloc, entries)?,
        })),
        None => Ok(None),
    }
}

/// How many parts the set has for a host's table.
pub fn parts_of(r: &RouteSet, dst: u16) -> u8
    requires { length (entries_from r.now dst) ≤ 128 }
    ensures { result ≡ part_count (length (entries_from r.now dst)) }
{
    part_count(routes_from(r.list(), dst).len())
}

/// The set's routes from a host, as entries of its table.
pub(crate) fn entries_from(alloc: Global, r: &RouteSet, host: u16) -> Result<EntryList, AllocError>
    ensures { IfOk result (λ es. es ≡ entries_from r.now host) }
{
    entries_of(alloc, routes_from(r.list(), host))
}

/// The number of parts for so many entries.
pub(crate) fn part_count(entries: usize) -> u8
    requires { entries ≤ 128 }
    ensures { result ≡ part_count entries }
{
    ((entries + (PART_SIZE - 1)) / PART_SIZE) as u8
}

// The routes of a part.
fn part_of(routes: &[Route], part: u8) -> &[Route]
    ensures { result.now ≡ take 8 (drop (8 * part) routes.now) }
{
    let begin = (PART_SIZE * usize::from(part)).min(routes.len());
    let end = (begin + PART_SIZE).min(routes.len());
    &routes[begin..end]
}

// The routes from a host. They stand together, since the routes rise.
fn routes_from(routes: &[Route], from: u16) -> &[Route]
    requires { AreRising routes.now }
    ensures { result.now ≡ filter (λ r. nat_eq r.from from) routes.now }
{
    let from = usize::from(from);
    let begin = count_below(routes, from);
    let end = count_below(routes, from + 1);
    &routes[begin..end]
}

// How many routes lesser hosts than a number have. Where each host up to the last sender has one to each other, no
// search is made.
fn count_below(routes: &[Route], limit: usize) -> usize
    requires { AreRising routes.now }
    ensures { result ≡ count_by (λ r. nat_lt r.from limit) routes.now }
{
    let likely = likely_before(routes, limit);
    if is_count_below(routes, likely, limit) {
        likely
    } else {
        routes.partition_point(|r| usize::from(r.from) < limit)
    }
}

// Whether so many routes are those of lesser hosts than a number, by the last of them and the first of the others.
fn is_count_below(routes: &[Route], count: usize, limit: usize) -> bool
    requires { AreRising routes.now }
    ensures { IsTrue result → count ≡ count_by (λ r. nat_lt r.from limit) routes.now }
{
    if count > routes.len() {
        return false;
    }
    let (front, others) = routes.split_at(count);
    ends_below(front, limit) && begins_from(others, limit)
}

// Whether the last of routes, if there is one, is of a lesser host than a number.
fn ends_below(routes: &[Route], limit: usize) -> bool
    requires { AreRising routes.now }
    ensures { IsTrue result → count_by (λ r. nat_lt r.from limit) routes.now ≡ length routes.now }
{
    match routes.last() {
        Some(r) => usize::from(r.from) < limit,
        None => true,
    }
}

// Whether the first of routes, if there is one, is of no lesser host than a number.
fn begins_from(routes: &[Route], limit: usize) -> bool
    requires { AreRising routes.now }
    ensures { IsTrue result → count_by (λ r. nat_lt r.from limit) routes.now ≡ 0 }
{
    match routes.first() {
        Some(r) => limit <= usize::from(r.from),
        None => true,
    }
}

// Entries of a table for these routes.
fn entries_of(alloc: Global, routes: &[Route]) -> Result<EntryList, AllocError>
    ensures value { IfOk result (λ es. es ≡ map (λ r. record { to = r.to; walk = r.walk }) routes.now) }
    ensures fit { IfOk result (λ es. list_all is_fit es ≡ true) }
{
    let mut entries = Vec::with_capacity(alloc, routes.len())?;
    for r in routes {
        entries.push_reserved(entry_of(alloc, r)?);
    }
    Ok(EntryList::new(entries))
}

// The entry of a table for a route.
fn entry_of(alloc: Global, r: &Route) -> Result<TableEntry, AllocError>
    ensures value { IfOk result (λ e. e ≡ record { to = r.now.to; walk = r.now.walk }) }
    ensures fit { IfOk result (λ e. is_fit e ≡ true) }
{
    let to = r.to;
    Ok(TableEntry {
        to,
        walk: copied(alloc, &r.walk)?,
    })
}

// A walk of the same turns.
fn copied(alloc: Global, walk: &Walk) -> Result<Walk, AllocError>
    ensures value { IfOk result (λ w. w ≡ walk.now) }
    ensures route { IfOk result (λ w. is_route w ≡ true) }
{
    let _turns = walk.turns();
    let copy = walk.copied(alloc)?;
    Ok(copy)
}
