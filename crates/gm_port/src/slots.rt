//! The slots of unfinished sends, by ticket.
//!
//! A slab chooses the key of a slot, so a table leads from a ticket to its key. The slot has the ticket, since a slab
//! of what must be spent could never be let go; token and buffer stand beside it under its key.
//!
//! ```text
//!   ticket       0      1      2
//!            +------+------+------+
//!   keys     |   1  |      |   0  |
//!            +------+------+------+
//!   key          0      1      2
//!            +------+------+------+
//!   slots    |   2  |   0  |      |
//!            +------+------+------+
//!   held     | send | send |      |
//!            +------+------+------+
//! ```

ghost use Rattle.std.specs.Prelude.{◌≡◌, ◌≤◌, [], length, true, None, Some, is_some, IfOk};
ghost use Rattle.std.specs.Prelude.{slice_get, slice_index_or, slice_set, vec_capacity};
ghost use Rattle.std.specs.List.{count_by};
ghost use Rattle.gm_port.specs.Table.{AreFree, buffer_in, held_in, is_held};

use gm_tokens::SendToken;
use reg_mem::Reg;
use slab::Slab;
use std::alloc::{AllocError, Global};
use std::collections::VecDeque;
use std::marker::Model;

/// The places of a port's sends by ticket, each free or with a send. Contracts see the list of them.
pub(crate) struct SendSlots {
    slots: Slab<usize>,
    keys: Vec<Option<usize>>,
    held: Vec<Option<(SendToken, Reg)>>,
}

impl Model for SendSlots {
    ghost use Rattle.std.specs.Prelude.{List};
    ghost use Rattle.gm_port.specs.Table.{Place};

    ghost Value = { List Place };

    ghost use Rattle.gm_port.specs.Slots.{by_ticket, AreSlots};

    ghost view = { λ s. by_ticket s.keys.items s.held.items };

    ghost invariant = { λ s. AreSlots s.slots s.keys.items s.held.items };
}

impl SendSlots {
    /// So many free places, with room for a send in each.
    pub(crate) fn with_room(alloc: Global, count: usize) -> Result<SendSlots, AllocError>
        ensures free { IfOk result (λ s. AreFree s) }
        ensures count { IfOk result (λ s. length s ≡ count) }
    {
        let slots = Slab::with_capacity(alloc, count)?;
        let keys = free_places(alloc, count)?;
        let held = free_places(alloc, slots.capacity())?;
        Ok(SendSlots { slots, keys, held })
    }

    /// How many places have a send.
    pub(crate) fn len(&self) -> usize
        ensures { result ≡ count_by is_some self.now }
    {
        self.slots.len()
    }

    /// Whether a place has a send.
    pub(crate) fn has(&self, ticket: usize) -> bool
        ensures { result ≡ is_held (slice_get self.now ticket) }
    {
        match self.keys.get(ticket) {
            Some(key) => key.is_some(),
            None => false,
        }
    }

    /// The buffer of a place's send.
    pub(crate) fn buffer(&self, ticket: usize) -> &[u8]
        requires { is_held (slice_get self.now ticket) ≡ true }
        ensures { buffer_in (slice_get self.now ticket) ≡ Some result.now }
    {
        match &self.held[key_of(&self.keys, ticket)] {
            Some((_, buffer)) => buffer.bytes(),
            None => unreachable!(),
        }
    }

    /// Puts a send into a free place. Takes no memory.
    pub(crate) fn put(&mut self, ticket: usize, token: SendToken, buffer: Reg)
        requires { slice_get self.old ticket ≡ Some None }
        ensures { self.new ≡ slice_set self.old ticket (Some (token, buffer)) }
    {
        let key = self.slots.insert_reserved(ticket);
        self.keys[ticket] = Some(key);
        put(&mut self.held, key, (token, buffer));
    }

    /// Takes the send of a place out.
    pub(crate) fn take(&mut self, ticket: usize) -> (SendToken, Reg)
        requires { is_held (slice_get self.old ticket) ≡ true }
        ensures rest { self.new ≡ slice_set self.old ticket None }
        ensures taken { slice_get self.old ticket ≡ Some (Some result) }
    {
        let key = key_of(&self.keys, ticket);
        let freed = self.slots.remove(key);
        self.keys[freed] = None;
        take(&mut self.held, key)
    }

    /// Moves all sends into a list, in the order of their tickets. Takes no memory.
    pub(crate) fn into_list(mut self, mut listed: Vec<(SendToken, Reg)>) -> Vec<(SendToken, Reg)>
        requires empty { listed.items ≡ [] }
        requires room { length self ≤ vec_capacity listed }
        ensures { result.items ≡ held_in self }
    {
        let count = self.keys.len();
        for ticket in 0..count {
            if self.has(ticket) {
                listed.push_reserved(self.take(ticket));
            }
        }
        let SendSlots {
            slots: _,
            keys: _,
            held,
        } = self;
        let_go(held);
        listed
    }
}

// The key of a send's slot.
fn key_of(keys: &[Option<usize>], ticket: usize) -> usize
    requires { is_some (slice_index_or keys.now ticket None) ≡ true }
    ensures { slice_index_or keys.now ticket None ≡ Some result }
{
    match keys[ticket] {
        Some(key) => key,
        None => unreachable!(),
    }
}

// So many places, all free.
fn free_places<T>(alloc: Global, count: usize) -> Result<Vec<Option<T>>, AllocError>
    ensures free { IfOk result (λ v. AreFree v.items) }
    ensures count { IfOk result (λ v. length v.items ≡ count) }
{
    let mut places = Vec::with_capacity(alloc, count)?;
    for _ in 0..count {
        places.push_reserved(None);
    }
    Ok(places)
}

// Puts a send into a free place.
fn put(places: &mut Vec<Option<(SendToken, Reg)>>, at: usize, send: (SendToken, Reg))
    requires { slice_get places.old.items at ≡ Some None }
    ensures { places.new.items ≡ slice_set places.old.items at (Some send) }
{
    if let Some(_lost) = places[at].replace(send) {
        unreachable!();
    }
}

// Takes a send out of its place.
fn take(places: &mut Vec<Option<(SendToken, Reg)>>, at: usize) -> (SendToken, Reg)
    requires { is_held (slice_get places.old.items at) ≡ true }
    ensures rest { places.new.items ≡ slice_set places.old.items at None }
    ensures taken { slice_get places.old.items at ≡ Some (Some result) }
{
    match places[at].take() {
        Some(send) => send,
        None => unreachable!(),
    }
}

// Lets places go, which are all free.
fn let_go(places: Vec<Option<(SendToken, Reg)>>)
    requires { AreFree places.items }
{
    let mut rest = VecDeque::from_vec(places);
    while let Some(place) = rest.pop_front() {
        if let Some(_lost) = place {
            unreachable!();
        }
    }
    rest.destroy_empty();
}
