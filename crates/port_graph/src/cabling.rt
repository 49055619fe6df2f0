//! The cables of a fabric, with a table of far ends.
//!
//! ```text
//!   place   0 .. 127         128 .. 143           144 .. 159      ..  1151
//!           port 0 of a      ports 0 to 15 of     of switch 1     ..
//!           host, each       switch 0
//! ```

ghost use Rattle.std.specs.Prelude.{◌≡◌, ◌≢◌, ◌<◌, ◌++◌, ◌∷◌, [], length, true, slice_get, slice_index_or, None, OnOk};
ghost use Rattle.std.specs.Prelude.{OnErr, nat_eq, ◌||◌, position};
ghost use Rattle.std.specs.List.{AllByRecursion};
ghost use Rattle.net_defs.specs.Network.{Apart, ends_of, far_end};
ghost use Rattle.port_graph.specs.Removing.{ends_at, without_end};
ghost use Rattle.port_graph.specs.Table.{is_possible, place_of_end, entry};

use net_defs::{Cable, End, Vertex};
use std::alloc::{AllocError, Global};
use std::marker::Model;

// Where the switches' ports begin in the table.
const HOST_PLACES: usize = 128;

// The places of one switch.
const PORT_PLACES: usize = 16;

// The places of the table.
const PLACES: usize = HOST_PLACES + 64 * PORT_PLACES;

/// Cables by number. A far end is found in constant time.
#[derive(Drop)]
pub(crate) struct Cabling {
    cables: Vec<Cable>,
    // Empty until there is a cable.
    far: Vec<Option<End>>,
}

impl Model for Cabling {
    ghost use Rattle.std.specs.Prelude.{List};
    ghost use Rattle.net_defs.specs.declared.vertex.Cable.{Cable};
    ghost use Rattle.port_graph.specs.Table.{IsTableOf};

    ghost Value = { List Cable };

    ghost view = { λ c. c.cables.items };

    ghost invariant = { λ c. IsTableOf c.cables.items c.far.items };
}

impl Cabling {
    pub(crate) fn new(alloc: Global) -> Cabling
        ensures { result ≡ [] }
    {
        Cabling {
            cables: Vec::new(alloc),
            far: Vec::new(alloc),
        }
    }

    pub(crate) fn len(&self) -> usize
        ensures { result ≡ length self.now }
    {
        self.cables.len()
    }

    /// The cable of a number.
    pub(crate) fn get(&self, k: usize) -> Option<Cable>
        ensures { result ≡ slice_get self.now k }
    {
        self.cables.get(k).copied()
    }

    /// The end at the other side of the cable at an end.
    pub(crate) fn far(&self, e: End) -> Option<End>
        requires { is_possible e ≡ true }
        ensures { result ≡ far_end self.now e }
    {
        entry_at(&self.far, place_of(e))
    }

    /// Joins two ends that have no cable.
    pub(crate) fn push(&mut self, a: End, b: End) -> Result<(), AllocError>
        requires possible_a { is_possible a ≡ true }
        requires possible_b { is_possible b ≡ true }
        requires free_a { far_end self.old a ≡ None }
        requires free_b { far_end self.old b ≡ None }
        requires two { a ≢ b }
        ensures ok { OnOk result (self.new ≡ self.old ++ record { a = a; b = b } ∷ []) }
        ensures err { OnErr result (self.new ≡ self.old) }
    {
        self.far.resize(PLACES, None)?;
        self.cables.push(Cable { a, b })?;
        self.far[place_of(a)] = Some(b);
        self.far[place_of(b)] = Some(a);
        Ok(())
    }

    /// Takes away the first cable that ends there, if there is one. It takes no memory.
    pub(crate) fn remove(&mut self, e: End)
        requires apart { Apart (ends_of self.old) }
        requires possible { AllByRecursion (λ d. is_possible d ≡ true) (ends_of self.old) }
        ensures { self.new ≡ without_end self.old e }
    {
        if let Some(k) = first_at(&self.cables, e) {
            let cable = self.cables.remove(k);
            self.far[place_of(cable.a)] = None;
            self.far[place_of(cable.b)] = None;
        }
    }
}

// The place of the first cable that ends there.
fn first_at(cables: &[Cable], e: End) -> Option<usize>
    ensures { result ≡ position (ends_at e) cables.now }
{
    cables.iter().position(|c| c.a == e || c.b == e)
}

// What the table has at a place.
fn entry_at(far: &[Option<End>], place: usize) -> Option<End>
    ensures { result ≡ slice_index_or far.now place None }
{
    if place < far.len() { far[place] } else { None }
}

// The place of an end.
fn place_of(e: End) -> usize
    ensures place { result ≡ place_of_end e }
    ensures within { is_possible e ≡ true → result < PLACES }
{
    match e.v {
        Vertex::Host(h) => usize::from(h),
        Vertex::Switch(s) => HOST_PLACES + PORT_PLACES * usize::from(s) + usize::from(e.p),
    }
}
