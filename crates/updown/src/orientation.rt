//! The orientation of a map.

ghost use Rattle.std.specs.Prelude.{◌≡◌, ◌<◌, ◌*◌, ◌/◌, pos, ◌-ℤ◌, ◌+ℤ◌, nat_abs, false, length, slice_index_or, IfOk};
ghost use Rattle.std.specs.Prelude.{map};
ghost use Rattle.net_defs.specs.Turn.{is_turn, IsTurn};
ghost use Rattle.map_defs.specs.NetMap.{NetMap, IsMap, IsConnected};
ghost use Rattle.map_defs.specs.Orientation.{order_of, is_up};
ghost use Rattle.fabric_map.specs.Table.{place_of_port};
ghost use Rattle.updown.specs.Oriented.{orientation_of, port_at, up_in};
ghost use Rattle.journal_defs.specs.Counting.{numbers_below};

use crate::levels::levels;
use crate::places::places;
use fabric_map::FabricMap;
use std::alloc::{AllocError, Global};
use std::marker::Model;

// The places of one vertex in the table.
const PORT_PLACES: usize = 31;

// The greatest port; the least is its negative.
const MAX_PORT: i8 = 15;

/// The places of a map's vertices, and which of its channels are up. Contracts see an `Oriented`.
#[derive(Drop)]
pub struct Orientation {
    order: Vec<u32>,
    ups: Vec<bool>,
}

impl Model for Orientation {
    ghost use Rattle.updown.specs.Oriented.{Oriented};

    ghost Value = { Oriented };

    ghost view = { λ o. record { order = o.order.items; ups = o.ups.items } };
}

/// The orientation of a connected map.
///
/// The root is vertex 1 where that is a switch, else vertex 0. The order is by distance from the root, then by number.
pub fn orient(alloc: Global, m: &FabricMap) -> Result<Orientation, AllocError>
    requires { IsConnected m.now }
    ensures { IfOk result (λ o. o ≡ orientation_of m.now) }
{
    let _ = m.vertices();
    let levels = levels(alloc, m)?;
    let order = places(alloc, &levels)?;
    let ups = ups(alloc, m, &order)?;
    Ok(Orientation { order, ups })
}

impl Orientation {
    /// The place of each vertex.
    pub fn order(&self) -> &[u32]
        ensures { result.now ≡ self.now.order }
    {
        &self.order
    }

    /// Whether the channel that leaves by a port is up; false where no cable is at the port.
    pub fn is_up(&self, v: u32, p: i8) -> bool
        ensures value { result ≡ up_in self.now record { v = v; p = p } }
        ensures of_map { (m : NetMap) → IsMap m → self.now ≡ orientation_of m
            → result ≡ is_up m (order_of m) record { v = v; p = p } }
    {
        if is_port(p) {
            up_at(&self.ups, place_of(v, p))
        } else {
            false
        }
    }
}

// The table of all ports.
fn ups(alloc: Global, m: &FabricMap, order: &[u32]) -> Result<Vec<bool>, AllocError>
    requires { length order.now ≡ length m.now.vertices }
    ensures { IfOk result (λ ups. ups.items ≡ map (λ k.
        is_up m.now order.now (port_at k)) (numbers_below (31 * length m.now.vertices))) }
{
    let _ = m.vertices();
    let mut ups = Vec::new(alloc);
    for k in 0..PORT_PLACES * order.len() {
        ups.push(is_up_at(m, order, k))?;
    }
    Ok(ups)
}

// Whether the channel that leaves by the port at a place is up.
fn is_up_at(m: &FabricMap, order: &[u32], k: usize) -> bool
    requires vertex { k / 31 < length order.now }
    requires one_each { length order.now ≡ length m.now.vertices }
    ensures { result ≡ is_up m.now order.now (port_at k) }
{
    let _ = m.vertices();
    let v = k / PORT_PLACES;
    let p = (k % PORT_PLACES) as i8 - MAX_PORT;
    match m.map_far(v as u32, p) {
        Some((w, _)) => order[w as usize] < order[v],
        None => false,
    }
}

// Whether a port is from -15 to 15.
fn is_port(p: i8) -> bool
    ensures { result ≡ is_turn p }
{
    -MAX_PORT <= p && p <= MAX_PORT
}

// The place of a port.
fn place_of(v: u32, p: i8) -> usize
    requires { IsTurn p }
    ensures { result ≡ place_of_port record { v = v; p = p } }
{
    PORT_PLACES * v as usize + (p + MAX_PORT) as usize
}

// What the table has at a place.
fn up_at(ups: &[bool], place: usize) -> bool
    ensures { result ≡ slice_index_or ups.now place false }
{
    if place < ups.len() { ups[place] } else { false }
}
