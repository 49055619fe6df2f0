//! The parts of a table that came so far.

ghost use Rattle.std.specs.Prelude.{◌≡◌, ◌<◌, ◌∷◌, [], length, slice_get, slice_set, OnOk, OnErr};
ghost use Rattle.world_defs.specs.Table.{with_part, joined_below};
ghost use Rattle.route_install.specs.Collecting.{place_of, has_number, are_all};

use route_parts::{EntryList, TableEntry};
use std::alloc::AllocError;
use std::marker::Model;
use std::mem;

/// A part of a table: its number and its entries.
#[derive(Drop)]
pub(crate) struct Collected {
    part: u8,
    entries: EntryList,
}

impl Model for Collected {
    ghost use Rattle.route_install.specs.Collecting.{Numbered};

    ghost Value = { Numbered };

    ghost view = { λ c. (c.part, c.entries) };
}

impl Collected {
    pub(crate) fn new(part: u8, entries: EntryList) -> Collected
        ensures { result ≡ (part, entries) }
    {
        Collected { part, entries }
    }

    fn number(&self) -> u8
        ensures { result ≡ self.now.0 }
    {
        self.part
    }

    pub(crate) fn entries(&self) -> &[TableEntry]
        ensures { result.now ≡ self.now.1 }
    {
        self.entries.list()
    }
}

/// Puts a part among others by its number, in the place of an earlier one.
pub(crate) fn put_part(
    parts: &mut Vec<Collected>,
    part: u8,
    entries: EntryList,
) -> Result<(), AllocError>
    ensures ok { OnOk result (parts.new.items ≡ with_part part entries parts.old.items) }
    ensures err { OnErr result (parts.new.items ≡ parts.old.items) }
{
    let place = place_of(parts, part);
    if has_number(parts, place, part) {
        put_at(parts, place, Collected::new(part, entries));
        Ok(())
    } else {
        parts.insert(place, Collected::new(part, entries))?;
        Ok(())
    }
}

/// Puts a part in the place of all.
pub(crate) fn put_alone(
    parts: &mut Vec<Collected>,
    part: u8,
    entries: EntryList,
) -> Result<(), AllocError>
    ensures ok { OnOk result (parts.new.items ≡ (part, entries) ∷ []) }
    ensures err { OnErr result (parts.new.items ≡ parts.old.items) }
{
    parts.reserve(1)?;
    parts.clear();
    parts.push_reserved(Collected::new(part, entries));
    Ok(())
}

/// Whether all parts below a number stand.
pub(crate) fn are_all(parts: &[Collected], count: u8) -> bool
    ensures { result ≡ are_all count parts.now }
{
    if count == 0 {
        true
    } else {
        has_number(parts, usize::from(count - 1), count - 1)
    }
}

// The place of the first part that isn't below a number.
fn place_of(parts: &[Collected], part: u8) -> usize
    ensures { result ≡ place_of part parts.now }
{
    for place in 0..parts.len() {
        if part <= parts[place].number() {
            return place;
        }
    }
    parts.len()
}

// Whether the part at a place has this number.
fn has_number(parts: &[Collected], place: usize, part: u8) -> bool
    ensures { result ≡ has_number (slice_get parts.now place) part }
{
    match parts.get(place) {
        Some(c) => c.number() == part,
        None => false,
    }
}

// Puts a part in the place of another.
fn put_at(parts: &mut Vec<Collected>, place: usize, part: Collected)
    requires { place < length parts.old.items }
    ensures { parts.new.items ≡ slice_set parts.old.items place part }
{
    let _ = mem::replace(&mut parts[place], part);
}
