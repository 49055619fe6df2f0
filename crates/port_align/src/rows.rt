//! Rows of far ends, in 8 bytes a place.

ghost use Rattle.std.specs.Prelude.{◌≡◌, ◌<◌, ◌≤◌, ◌++◌, ◌∷◌, [], length, set, slice_index_or, None, OnOk};
ghost use Rattle.port_align.specs.Kept.{end_in};

use crate::end::NodePort;
use std::alloc::{AllocError, Global};
use std::marker::Model;

/// A far end as a row keeps it: none where there is no port. An `Option<NodePort>` takes half as much again.
#[derive(Clone, Copy, Debug)]
pub(crate) struct KeptEnd {
    node: u32,
    port: Option<i8>,
}

/// Far ends by place. Contracts see the list of places, and for how many there is room.
#[derive(Drop)]
pub(crate) struct Rows {
    ends: Vec<KeptEnd>,
}

impl Model for Rows {
    ghost use Rattle.std.specs.Prelude.{map, vec_capacity};
    ghost use Rattle.port_align.specs.Kept.{RowTable, end_in};

    ghost Value = { RowTable };

    ghost view = { λ r. record { items = map end_in r.ends.items; room = vec_capacity r.ends } };
}

impl Rows {
    /// No places. It takes no memory.
    pub(crate) fn new(alloc: Global) -> Rows
        ensures { result.items ≡ [] }
    {
        Rows {
            ends: Vec::new(alloc),
        }
    }

    /// How many places there are.
    pub(crate) fn len(&self) -> usize
        ensures { result ≡ length self.now.items }
    {
        self.ends.len()
    }

    /// What stands at a place.
    pub(crate) fn at(&self, place: usize) -> Option<NodePort>
        requires { place < length self.now.items }
        ensures { result ≡ slice_index_or self.now.items place None }
    {
        end_in(self.ends[place])
    }

    /// Keeps an end at a place, or that none is known.
    pub(crate) fn set(&mut self, place: usize, end: Option<NodePort>)
        requires { place < length self.old.items }
        ensures items { self.new.items ≡ set self.old.items place end }
        ensures room { self.new.room ≡ self.old.room }
    {
        self.ends[place] = kept(end);
    }

    /// Adds a place at which nothing stands. There is room.
    pub(crate) fn push_none(&mut self)
        requires { length self.old.items < self.old.room }
        ensures items { self.new.items ≡ self.old.items ++ None ∷ [] }
        ensures room { self.new.room ≡ self.old.room }
    {
        self.ends.push_reserved(kept(None));
    }

    /// Room for so many places in all.
    pub(crate) fn reserve(&mut self, places: usize) -> Result<(), AllocError>
        ensures same { self.new.items ≡ self.old.items }
        ensures kept { self.old.room ≤ self.new.room }
        ensures room { OnOk result (places ≤ self.new.room) }
    {
        self.ends.reserve(places.saturating_sub(self.ends.len()))
    }
}

// The end that is kept so.
fn end_in(kept: KeptEnd) -> Option<NodePort>
    ensures { result ≡ end_in kept }
{
    match kept.port {
        Some(port) => Some(NodePort {
            node: kept.node,
            port,
        }),
        None => None,
    }
}

// An end as it is kept.
fn kept(end: Option<NodePort>) -> KeptEnd
    ensures { end_in result ≡ end }
{
    match end {
        Some(end) => KeptEnd {
            node: end.node,
            port: Some(end.port),
        },
        None => KeptEnd {
            node: 0,
            port: None,
        },
    }
}
