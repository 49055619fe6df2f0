//! Channels of a drain that may go on.
//!
//! A channel whose packet was found waiting for another one sleeps until that is emptied: so it is tried again where
//! something has changed for it, and not at each pass.
//!
//! ```text
//!   places    c c c . .. .    c . .. .    ..        a row of 16 for each channel: those that wait for it
//!   counts    3               1           ..        how many of each row are in use
//! ```

ghost use Rattle.std.specs.Prelude.{◌≡◌, ℕ, ◌+◌, ◌*◌, ◌<◌, ◌≤◌, length, slice_index_or, slice_set, None, IfOk};
ghost use Rattle.std.specs.Prelude.{IfSome, IfNone, replicate};
ghost use Rattle.world_defs.specs.Links.{packet_in};
ghost use Rattle.number_marks.specs.Marks.{IsWritten, mark_at};
ghost use Rattle.world_drain.specs.Awake.{AreAwake, AreAwakeBut, AreAwakeOnce, AreAwakeBehind, IsNextAwake};
ghost use Rattle.world_drain.specs.Awake.{IsStill, WaitsFor};

use fab_world::{Hop, World};
use number_marks::{bare, next_marked};
use std::alloc::{AllocError, Global};

// How many channels may wait for one. More stay awake.
const PLACES: u16 = 16;

// A piece of zeros: 1 KiB.
static ZEROS: [u16; 512] = [0; 512];

/// The channels that are awake, and for each channel those that wait for it.
#[derive(Drop)]
pub(crate) struct Awake {
    marks: Vec<u64>,
    places: Vec<u16>,
    counts: Vec<u16>,
}

impl Awake {
    /// Each channel that holds a packet is awake.
    pub(crate) fn new(alloc: Global, w: &World) -> Result<Awake, AllocError>
        ensures { IfOk result (λ a. AreAwake w.now.links a.marks.items a.places.items a.counts.items) }
    {
        let channels = usize::from(w.channels());
        let places = bare_places(alloc, 16 * channels)?;
        let counts = vec![in alloc; 0; channels]?;
        let mut marks = bare(alloc, channels)?;
        mark_full(w, &mut marks);
        Ok(Awake {
            marks,
            places,
            counts,
        })
    }

    /// The least channel that is awake and isn't below a number. An advance of one before it would change nothing.
    pub(crate) fn next(&self, w: &World, from: u16) -> Option<u16>
        requires { AreAwake w.now.links self.now.marks.items self.now.places.items self.now.counts.items }
        ensures found { IfSome result (IsNextAwake w.now from) }
        ensures none { IfNone result ((c : ℕ) → from ≤ c → IsStill w.now c) }
    {
        match next_marked(&self.marks, usize::from(from)) {
            Some(c) if c < usize::from(w.channels()) => Some(c as u16),
            _ => None,
        }
    }

    /// The marks and rows follow an advance of a channel, of which a hop says where its packet is now. One that is
    /// empty wakes those that waited for it, and the one that a packet has entered is awake.
    pub(crate) fn after(&mut self, w: &World, c: u16, hop: Hop)
        requires awake { AreAwakeBehind hop w.now.links c
            self.old.marks.items self.old.places.items self.old.counts.items }
        requires there { c < length w.now.links.channels }
        ensures { AreAwake w.now.links self.new.marks.items self.new.places.items self.new.counts.items }
    {
        match hop {
            Hop::Moved(next) => {
                unmark(&mut self.marks, c);
                mark(&mut self.marks, next);
                self.wake(w, c);
            }
            Hop::Blocked(next) => self.blocked(w, c, next),
            Hop::Untried => {
                unmark(&mut self.marks, c);
                self.wake(w, c);
            }
        }
    }

    // A channel's packet waits for another channel: it sleeps, if there is a place for it in that one's row.
    fn blocked(&mut self, w: &World, c: u16, next: u16)
        requires awake { AreAwake w.now.links self.old.marks.items self.old.places.items self.old.counts.items }
        requires waits { WaitsFor w.now.links c next }
        requires there { c < length w.now.links.channels }
        ensures { AreAwake w.now.links self.new.marks.items self.new.places.items self.new.counts.items }
    {
        let row = usize::from(next);
        let count = number_at(&self.counts, row);
        if count < PLACES {
            put(&mut self.places, place_of(next, count), c);
            put(&mut self.counts, row, count + 1);
            unmark(&mut self.marks, c);
        }
    }

    // Those in the row of a channel are awake.
    fn wake(&mut self, w: &World, c: u16)
        requires awake { AreAwakeBut w.now.links c self.old.marks.items self.old.places.items self.old.counts.items }
        requires there { c < length w.now.links.channels }
        ensures { AreAwake w.now.links self.new.marks.items self.new.places.items self.new.counts.items }
    {
        let row = usize::from(c);
        let count = number_at(&self.counts, row);
        mark_all(
            &self.places,
            place_of(c, 0),
            place_of(c, count),
            &mut self.marks,
        );
        put(&mut self.counts, row, 0);
    }
}

// So many zeros. They are written piece by piece: a short piece is written by wide stores.
fn bare_places(alloc: Global, len: usize) -> Result<Vec<u16>, AllocError>
    requires { len ≤ 1048560 }
    ensures { IfOk result (λ v. v.items ≡ replicate len 0) }
{
    let mut places = Vec::with_capacity(alloc, len)?;
    'filling: while places.len() < len {
        let count = (len - places.len()).min(ZEROS.len());
        places.extend_from_slice(zeros(count))?;
    }
    Ok(places)
}

// So many zeros, at most a piece of them.
fn zeros(len: usize) -> &'static [u16]
    requires { len ≤ 512 }
    ensures { result.now ≡ replicate len 0 }
{
    &ZEROS[..len]
}

// Marks each channel that holds a packet.
fn mark_full(w: &World, marks: &mut Vec<u64>)
    requires { length w.now.links.channels ≤ 64 * length marks.old.items }
    ensures size { length marks.new.items ≡ length marks.old.items }
    ensures full { (c : ℕ) → mark_at marks.new.items c ≡ 0 → packet_in w.now.links c ≡ None }
{
    let _few = w.channels();
    let mut from = 0;
    while let Some(c) = w.next_full(from) {
        mark(marks, c);
        from = c + 1;
    }
}

// Marks the channels that stand from one place up to another.
fn mark_all(places: &Vec<u16>, first: usize, end: usize, marks: &mut Vec<u64>)
    requires within { end ≤ length places.now.items }
    requires low { (i : ℕ) → slice_index_or places.now.items i 0 < 64 * length marks.old.items }
    ensures size { length marks.new.items ≡ length marks.old.items }
    ensures kept { (c : ℕ) → mark_at marks.new.items c ≡ 0 → mark_at marks.old.items c ≡ 0 }
    ensures marked { (i : ℕ) → first ≤ i → i < end → mark_at marks.new.items (slice_index_or places.now.items i 0) ≡ 1 }
{
    for at in first..end {
        mark(marks, number_at(places, at));
    }
}

// Marks a channel.
fn mark(marks: &mut Vec<u64>, c: u16)
    requires { c < 64 * length marks.old.items }
    ensures { IsWritten marks.old.items marks.new.items c 1 }
{
    number_marks::mark(marks, usize::from(c));
}

// Takes a channel's mark away.
fn unmark(marks: &mut Vec<u64>, c: u16)
    requires { c < 64 * length marks.old.items }
    ensures { IsWritten marks.old.items marks.new.items c 0 }
{
    number_marks::unmark(marks, usize::from(c));
}

// A place in the row of a channel.
fn place_of(channel: u16, number: u16) -> usize
    ensures { result ≡ 16 * channel + number }
{
    usize::from(PLACES) * usize::from(channel) + usize::from(number)
}

// The number at a place.
fn number_at(numbers: &Vec<u16>, at: usize) -> u16
    requires { at < length numbers.now.items }
    ensures { result ≡ slice_index_or numbers.now.items at 0 }
{
    numbers[at]
}

// Puts a number at a place.
fn put(numbers: &mut Vec<u16>, at: usize, number: u16)
    requires { at < length numbers.old.items }
    ensures { numbers.new.items ≡ slice_set numbers.old.items at number }
{
    numbers[at] = number;
}
