//! Where the entry for a host stands in a table.
//!
//! ```text
//!   hosts       0 1 3 4 5 6 7 8 | 9 10 12 ..     of host 2, in a map without host 11
//!   part        0               | 1
//!   place       0 1 2 3 4 5 6 7 | 8  9 10 ..
//! ```
//!
//! Where all hosts are in the map, a lesser host than the table's own stands at its number, and a greater one at the
//! place before.

ghost use Rattle.std.specs.Prelude.{◌≡◌, ◌≤◌, ◌^◌, true, find, nat_eq, option_copied, option_map, Some, IfSome};
ghost use Rattle.route_install.specs.Collecting.{joined_all};
ghost use Rattle.route_install.specs.Finding.{IsEntryOf, rises_from, are_rising};

use crate::collected::Collected;
use net_defs::Walk;
use route_parts::TableEntry;

// The most entries of a part.
const PART_SIZE: usize = 8;

/// Whether the hosts of the entries rise, from the first entry of the first part on.
pub(crate) fn are_rising(parts: &[Collected]) -> bool
    ensures { result ≡ are_rising (joined_all parts.now) }
{
    let mut least = 0;
    for part in parts {
        match rises_from(least, part.entries()) {
            Some(next) => least = next,
            None => return false,
        }
    }
    true
}

// The number after the last host of entries, whose hosts rise from a least one on.
fn rises_from(first: u32, entries: &[TableEntry]) -> Option<u32>
    requires { first ≤ 2 ^ 16 }
    ensures value { result ≡ rises_from first entries.now }
    ensures few { IfSome result (λ n. n ≤ 2 ^ 16) }
{
    let mut least = first;
    for entry in entries {
        let to = u32::from(entry.to);
        if to < least {
            return None;
        }
        least = to + 1;
    }
    Some(least)
}

/// The route to a host, by the first entry for it. Where the hosts of the entries rise, a place is tried first, and
/// then it is looked for by halves.
pub(crate) fn route_in<'a>(
    parts: &'a [Collected],
    rising: bool,
    place: usize,
    to: u16,
) -> Option<&'a Walk>
    requires { rising ≡ are_rising (joined_all parts.now) }
    ensures { option_copied result ≡ option_map (λ e. e.walk) (find (λ e. nat_eq e.to to) (joined_all parts.now)) }
{
    match risen(parts, rising, place, to) {
        Some(entry) => Some(&entry.walk),
        None => first_route(parts, to),
    }
}

// An entry for a host among those whose hosts rise. There may be one that isn't found.
fn risen<'a>(parts: &'a [Collected], rising: bool, place: usize, to: u16) -> Option<&'a TableEntry>
    requires { rising ≡ are_rising (joined_all parts.now) }
    ensures { IfSome result (λ e. find (λ f. nat_eq f.to to) (joined_all parts.now) ≡ Some e.now) }
{
    if rising {
        entry_for(parts, place, to)
    } else {
        None
    }
}

// An entry for a host, looked for at a place first.
fn entry_for<'a>(parts: &'a [Collected], place: usize, to: u16) -> Option<&'a TableEntry>
    ensures there { IfSome result (λ e. IsEntryOf parts.now e.now) }
    ensures to { IfSome result (λ e. e.now.to ≡ to) }
{
    match entry_at(parts, place) {
        Some(entry) => {
            if entry.to == to {
                Some(entry)
            } else {
                by_halves(parts, to)
            }
        }
        None => by_halves(parts, to),
    }
}

// An entry for a host, looked for by halves: a part by the last hosts of the parts, and then an entry of it.
fn by_halves<'a>(parts: &'a [Collected], to: u16) -> Option<&'a TableEntry>
    ensures there { IfSome result (λ e. IsEntryOf parts.now e.now) }
    ensures to { IfSome result (λ e. e.now.to ≡ to) }
{
    let part = parts.partition_point(|part| ends_below(part.entries(), to));
    match entry_in(parts, part, place_in(parts, part, to)) {
        Some(entry) => { if entry.to == to { Some(entry) } else { None } }
        None => None,
    }
}

// Whether the last of entries is for a lesser host.
fn ends_below(entries: &[TableEntry], to: u16) -> bool {
    match entries.last() {
        Some(last) => last.to < to,
        None => true,
    }
}

// The place that an entry for a host has among those of a part, if it has one there.
fn place_in(parts: &[Collected], part: usize, to: u16) -> usize {
    match parts.get(part) {
        Some(part) => part.entries().partition_point(|entry| entry.to < to),
        None => 0,
    }
}

// The entry at a place of a table that is one part, or has full parts but for the last.
fn entry_at<'a>(parts: &'a [Collected], place: usize) -> Option<&'a TableEntry>
    ensures { IfSome result (λ e. IsEntryOf parts.now e.now) }
{
    if parts.len() == 1 {
        entry_in(parts, 0, place)
    } else {
        entry_in(parts, place / PART_SIZE, place % PART_SIZE)
    }
}

// The entry at a place of a part.
fn entry_in<'a>(parts: &'a [Collected], part: usize, place: usize) -> Option<&'a TableEntry>
    ensures { IfSome result (λ e. IsEntryOf parts.now e.now) }
{
    match parts.get(part) {
        Some(part) => part.entries().get(place),
        None => None,
    }
}

// The route to a host, by the first entry for it.
fn first_route<'a>(parts: &'a [Collected], to: u16) -> Option<&'a Walk>
    ensures { option_copied result ≡ option_map (λ e. e.walk) (find (λ e. nat_eq e.to to) (joined_all parts.now)) }
{
    for part in parts {
        match walk_in(part.entries(), to) {
            Some(walk) => return Some(walk),
            None => {}
        }
    }
    None
}

// The route to a host, by the first of these entries for it.
fn walk_in<'a>(entries: &'a [TableEntry], to: u16) -> Option<&'a Walk>
    ensures { option_copied result ≡ option_map (λ e. e.walk) (find (λ e. nat_eq e.to to) entries.now) }
{
    for entry in entries {
        if entry.to == to {
            return Some(&entry.walk);
        }
    }
    None
}
