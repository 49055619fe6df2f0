//! The table of far ends.

ghost use Rattle.std.specs.Prelude.{◌≡◌, ◌≢◌, ℕ, ◌<◌, ◌≤◌, ◌+◌, ◌*◌, ◌^◌, [], length, set, slice_index_or, None, Some};
ghost use Rattle.std.specs.Prelude.{false, vec_capacity, OnOk};
ghost use Rattle.port_align.specs.Ends.{AddsPlaces, AddsRow, HasRoomForNumber, AreRowsOf, PutsAt, alone, known_at};
ghost use Rattle.port_align.specs.Ends.{look};
ghost use Rattle.port_align.specs.Ends.{one_at, HasPlace, IsOutside, IsSpanOf};

use crate::end::NodePort;
use crate::rows::Rows;
use std::alloc::{AllocError, Global};
use std::marker::Model;

// The places of one number.
const PLACES: usize = 31;

// Room is taken for the rows of so many numbers at the least. A block of that size is mapped by itself, so it grows
// without a copy, which would touch all of it.
const FEWEST_NUMBERS: usize = 1_024;

// The most numbers of a table, so that a row is known by 32 bits.
const MOST_NUMBERS: usize = 4_294_967_296;

/// What is known of the places of one number.
#[derive(Clone, Copy, Debug)]
enum Known {
    /// No far end.
    Nothing,
    /// One, at a place: its port, and its number.
    One(u8, i8, u32),
    /// What the row of this number has.
    Row(u32),
}

/// Far ends by place, 31 places a number. Contracts see the list of places, and for how much there is room.
///
/// There is always room for a row of each number, so that keeping an end takes no memory. That room isn't touched
/// before it is used.
#[derive(Drop)]
pub struct PortTable {
    known: Vec<Known>,
    rows: Rows,
}

impl Model for PortTable {
    ghost use Rattle.std.specs.Prelude.{◌≤◌, ◌*◌, length, min, vec_capacity};
    ghost use Rattle.port_align.specs.Ends.{EndTable, AreRowsOf, dense};

    ghost Value = { EndTable };

    ghost view = { λ t. record {
      items = dense t.known.items t.rows.items;
      number_room = min (vec_capacity t.known) 4294967296;
      row_room = t.rows.room;
    } };

    ghost invariant = { λ t. AreRowsOf t.known.items t.rows.items × (31 * length t.known.items ≤ t.rows.room) ×
        (length t.known.items ≤ 4294967296) };
}

impl PortTable {
    /// The table without numbers. It takes no memory.
    pub fn new(alloc: Global) -> PortTable
        ensures { result.items ≡ [] }
    {
        PortTable {
            known: Vec::new(alloc),
            rows: Rows::new(alloc),
        }
    }

    /// What is known at a place of a number; nothing of a number past the last.
    pub fn at_port(&self, number: usize, place: usize) -> Option<NodePort>
        requires { place < 31 }
        ensures { result ≡ slice_index_or self.now.items (31 * number + place) None }
    {
        if number < self.known.len() {
            looked(&self.known, &self.rows, number, place)
        } else {
            None
        }
    }

    /// The places of a number at which an end may be known: from the first one up to the second.
    pub fn span(&self, number: usize) -> (usize, usize)
        ensures first { result.0 ≤ 31 }
        ensures end { result.1 ≤ 31 }
        ensures outside { (i : ℕ) → i < 31 → IsOutside result.0 result.1 i
            → slice_index_or self.now.items (31 * number + i) None ≡ None }
    {
        if number < self.known.len() {
            span_of(known_of(&self.known, number))
        } else {
            (0, 0)
        }
    }

    /// Keeps an end at a place of a number, or that none is known.
    pub fn set_port(&mut self, number: usize, place: usize, end: Option<NodePort>)
        requires there { 31 * number + place < length self.old.items }
        requires place { place < 31 }
        ensures items { self.new.items ≡ set self.old.items (31 * number + place) end }
        ensures number_room { self.new.number_room ≡ self.old.number_room }
        ensures row_room { self.new.row_room ≡ self.old.row_room }
    {
        put(&mut self.known, &mut self.rows, number, place, end);
    }

    /// Room for one number more.
    pub fn reserve(&mut self) -> Result<(), AllocError>
        ensures same { self.new.items ≡ self.old.items }
        ensures room { OnOk result (HasRoomForNumber self.new) }
    {
        if is_full(&self.known) {
            return Err(AllocError);
        }
        self.known.reserve(1)?;
        reserve_rows(&mut self.rows, self.known.len() + 1)?;
        Ok(())
    }

    /// Adds the next number, of which nothing is known. There is room.
    pub fn add(&mut self)
        requires { HasRoomForNumber self.old }
        ensures more { length self.new.items ≡ length self.old.items + 31 }
        ensures same { (k : ℕ) → slice_index_or self.new.items k None ≡ slice_index_or self.old.items k None }
    {
        self.known.push_reserved(Known::Nothing);
    }

    /// Makes it a table of at least so many numbers. Nothing is known of those that are new.
    pub fn lengthen(&mut self, numbers: usize) -> Result<(), AllocError>
        ensures long { OnOk result (31 * numbers ≤ length self.new.items) }
        ensures same { (k : ℕ) → slice_index_or self.new.items k None ≡ slice_index_or self.old.items k None }
    {
        self.make_room(numbers)?;
        'longer: while self.numbers() < numbers {
            self.reserve()?;
            self.add();
        }
        Ok(())
    }

    // Room for so many numbers in all, so that it is taken once.
    fn make_room(&mut self, numbers: usize) -> Result<(), AllocError>
        ensures { self.new.items ≡ self.old.items }
    {
        if numbers > MOST_NUMBERS {
            return Err(AllocError);
        }
        self.known
            .reserve(numbers.saturating_sub(self.known.len()))?;
        reserve_rows(&mut self.rows, numbers)
    }

    // How many numbers there are.
    fn numbers(&self) -> usize
        ensures { length self.now.items ≡ 31 * result }
    {
        self.known.len()
    }
}

// Whether no number of a table's is left.
fn is_full(known: &Vec<Known>) -> bool
    ensures { result ≡ false → length known.now.items < 2 ^ 32 }
{
    known.len() >= MOST_NUMBERS
}

// Room for the rows of so many numbers.
fn reserve_rows(rows: &mut Rows, numbers: usize) -> Result<(), AllocError>
    requires { 31 * numbers < 2 ^ 64 }
    ensures same { rows.new.items ≡ rows.old.items }
    ensures kept { rows.old.room ≤ rows.new.room }
    ensures room { OnOk result (31 * numbers ≤ rows.new.room) }
{
    rows.reserve(PLACES * numbers_with_room(numbers))
}

// For the rows of how many numbers room is taken where so many are to have it.
fn numbers_with_room(numbers: usize) -> usize
    requires { 31 * numbers < 2 ^ 64 }
    ensures enough { numbers ≤ result }
    ensures fits { 31 * result < 2 ^ 64 }
{
    if numbers < FEWEST_NUMBERS {
        FEWEST_NUMBERS
    } else {
        numbers
    }
}

// What is known at a place of a number.
fn looked(known: &Vec<Known>, rows: &Rows, number: usize, place: usize) -> Option<NodePort>
    requires there { number < length known.now.items }
    requires place { place < 31 }
    requires sound { AreRowsOf known.now.items rows.now.items }
    ensures { result ≡ look rows.now.items (known_at known.now.items number) place }
{
    match known_of(known, number) {
        Known::Nothing => None,
        Known::One(at, port, node) => {
            if usize::from(at) == place {
                Some(NodePort { node, port })
            } else {
                None
            }
        }
        Known::Row(row) => row_end(rows, row as usize, place),
    }
}

// The places at which an end may be known, where this is known of a number.
fn span_of(known: Known) -> (usize, usize)
    requires { HasPlace known }
    ensures first { result.0 ≤ 31 }
    ensures end { result.1 ≤ 31 }
    ensures outside { IsSpanOf known result.0 result.1 }
{
    match known {
        Known::Nothing => (0, 0),
        Known::One(at, _, _) => {
            let place = usize::from(at);
            (place, place + 1)
        }
        Known::Row(_) => (0, PLACES),
    }
}

// What is known of a number.
fn known_of(known: &Vec<Known>, number: usize) -> Known
    requires { number < length known.now.items }
    ensures { result ≡ known_at known.now.items number }
{
    known[number]
}

// What stands in a row.
fn row_end(rows: &Rows, row: usize, place: usize) -> Option<NodePort>
    requires there { 31 * row + 31 ≤ length rows.now.items }
    requires place { place < 31 }
    ensures { result ≡ slice_index_or rows.now.items (31 * row + place) None }
{
    let _places = rows.len();
    rows.at(PLACES * row + place)
}

// Keeps an end in a row, or that none is known.
fn set_row_end(rows: &mut Rows, row: usize, place: usize, end: Option<NodePort>)
    requires there { 31 * row + 31 ≤ length rows.old.items }
    requires place { place < 31 }
    ensures items { rows.new.items ≡ set rows.old.items (31 * row + place) end }
    ensures capacity { rows.new.room ≡ rows.old.room }
{
    let _places = rows.len();
    rows.set(PLACES * row + place, end);
}

// Keeps an end at a place of a number, or that none is known.
fn put(known: &mut Vec<Known>, rows: &mut Rows, number: usize, place: usize, end: Option<NodePort>)
    requires there { number < length known.old.items }
    requires place { place < 31 }
    requires sound { AreRowsOf known.old.items rows.old.items }
    requires few { length known.old.items ≤ 2 ^ 32 }
    requires room { 31 * length known.old.items ≤ rows.old.room }
    ensures puts { PutsAt number place end known.old.items rows.old.items known.new.items rows.new.items }
    ensures capacity { vec_capacity known.new ≡ vec_capacity known.old }
    ensures row_capacity { rows.new.room ≡ rows.old.room }
{
    match known_of(known, number) {
        Known::Nothing => known[number] = alone(place, end),
        Known::One(at, port, node) => {
            put_beside(known, rows, number, at, NodePort { node, port }, place, end)
        }
        Known::Row(row) => set_row_end(rows, row as usize, place, end),
    }
}

// Keeps an end at a place of a number of which one end is known.
fn put_beside(
    known: &mut Vec<Known>,
    rows: &mut Rows,
    number: usize,
    at: u8,
    first: NodePort,
    place: usize,
    end: Option<NodePort>,
)
    requires there { number < length known.old.items }
    requires place { place < 31 }
    requires one { known_at known.old.items number ≡ one_at at first }
    requires at { at < 31 }
    requires sound { AreRowsOf known.old.items rows.old.items }
    requires few { length known.old.items ≤ 2 ^ 32 }
    requires room { 31 * length known.old.items ≤ rows.old.room }
    ensures puts { PutsAt number place end known.old.items rows.old.items known.new.items rows.new.items }
    ensures capacity { vec_capacity known.new ≡ vec_capacity known.old }
    ensures row_capacity { rows.new.room ≡ rows.old.room }
{
    if usize::from(at) == place {
        known[number] = alone(place, end);
    } else if end.is_some() {
        let row = add_row(rows, usize::from(at), first, place, end);
        known[number] = Known::Row(row as u32);
    }
}

// What is known where there is at most one end.
fn alone(place: usize, end: Option<NodePort>) -> Known
    requires { place < 31 }
    ensures { result ≡ alone place end }
{
    match end {
        Some(end) => Known::One(place as u8, end.port, end.node),
        None => Known::Nothing,
    }
}

// Adds a row with two ends at two places.
fn add_row(
    rows: &mut Rows,
    at: usize,
    first: NodePort,
    place: usize,
    second: Option<NodePort>,
) -> usize
    requires whole { (n : ℕ) × (length rows.old.items ≡ 31 * n) }
    requires room { length rows.old.items + 31 ≤ rows.old.room }
    requires first { at < 31 }
    requires second { place < 31 }
    requires two { at ≢ place }
    ensures adds { AddsRow at place (Some first) second rows.old.items rows.new.items result }
    ensures capacity { rows.new.room ≡ rows.old.room }
{
    let row = rows.len() / PLACES;
    add_places(rows);
    set_row_end(rows, row, at, Some(first));
    set_row_end(rows, row, place, second);
    row
}

// Adds the places of a row.
fn add_places(rows: &mut Rows)
    requires room { length rows.old.items + 31 ≤ rows.old.room }
    ensures adds { AddsPlaces rows.old.items rows.new.items }
    ensures capacity { rows.new.room ≡ rows.old.room }
{
    for place in 0..PLACES {
        let _place = place;
        rows.push_none();
    }
}
