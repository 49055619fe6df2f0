//! The descriptors that wait, in a ring.

ghost use Rattle.std.specs.Prelude.{◌≡◌, ◌<◌, ◌+◌, [], ◌∷◌, ◌++◌, false, length, drop, slice_get, IsTrue};
ghost use Rattle.std.specs.Option.{option_copied};

use crate::Desc;
use circular_buffer::HeapCircularBuffer;
use std::alloc::Global;
use std::marker::Model;

// How many descriptors a new ring holds: a lane with a second message soon has more, and one alone loses little by it.
const FIRST_ROOM: usize = 4;

/// Descriptors, oldest first. Room is made apart from its use, and a new one takes no memory.
#[derive(Drop)]
pub(crate) struct DescRing {
    alloc: Global,
    ring: Option<HeapCircularBuffer<Desc>>,
}

impl Model for DescRing {
    ghost use Rattle.gm_conn.specs.Ring.{Descs, held_in, IsRoomy};

    ghost Value = { Descs };

    ghost view = { λ r. held_in r.ring };

    ghost invariant = { λ r. IsRoomy r.ring };
}

impl DescRing {
    /// No descriptors, and no room for any.
    pub(crate) fn new(alloc: Global) -> DescRing
        ensures { result ≡ record { items = []; spare = 0 } }
    {
        DescRing { alloc, ring: None }
    }

    /// Makes room for one more, in a ring twice as large where there is none. False where that finds no memory, which
    /// changes nothing; where there is room it takes none.
    pub(crate) fn make_room(&mut self) -> bool
        ensures items { self.new.items ≡ self.old.items }
        ensures room { IsTrue result → 0 < self.new.spare }
        ensures in_room { 0 < self.old.spare → IsTrue result }
        ensures none { result ≡ false → self.new ≡ self.old }
    {
        if let Some(ring) = &mut self.ring {
            return enlarge(ring);
        }
        match HeapCircularBuffer::with_capacity(self.alloc, FIRST_ROOM) {
            Ok(ring) => {
                let _none = self.ring.replace(ring);
                true
            }
            Err(_) => false,
        }
    }

    /// Puts one after the others, into the room that was made.
    pub(crate) fn push_back_reserved(&mut self, d: Desc)
        requires { 0 < self.old.spare }
        ensures items { self.new.items ≡ self.old.items ++ d ∷ [] }
        ensures room { self.new.spare + 1 ≡ self.old.spare }
    {
        match &mut self.ring {
            Some(ring) => match ring.try_push_back(d) {
                Ok(()) => {}
                Err(_) => unreachable!(),
            },
            None => unreachable!(),
        }
    }

    /// Takes the oldest out.
    pub(crate) fn pop_front(&mut self) -> Option<Desc>
        ensures oldest { result ≡ slice_get self.old.items 0 }
        ensures rest { self.new.items ≡ drop 1 self.old.items }
        ensures room { 0 < length self.old.items → self.new.spare ≡ self.old.spare + 1 }
    {
        match &mut self.ring {
            Some(ring) => ring.pop_front(),
            None => None,
        }
    }

    /// The descriptor of a place.
    pub(crate) fn get(&self, place: usize) -> Option<&Desc>
        ensures { option_copied result ≡ slice_get self.now.items place }
    {
        match &self.ring {
            Some(ring) => ring.get(place),
            None => None,
        }
    }
}

// Makes room for one more in a ring.
fn enlarge(ring: &mut HeapCircularBuffer<Desc>) -> bool
    ensures items { ring.new.items ≡ ring.old.items }
    ensures room { IsTrue result → length ring.new.items < ring.new.capacity }
    ensures in_room { length ring.old.items < ring.old.capacity → IsTrue result }
    ensures none { result ≡ false → ring.new ≡ ring.old }
{
    if ring.len() < ring.capacity() {
        return true;
    }
    let more = ring.capacity().max(FIRST_ROOM);
    ring.resize(ring.capacity() + more).is_ok()
}
