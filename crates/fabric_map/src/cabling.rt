//! The cables of a map, with a table of far ends.
//!
//! ```text
//!   place   0 .. 30               31 .. 61              ..
//!           ports -15 to 15 of    ports -15 to 15 of    ..
//!           vertex 0              vertex 1
//! ```

ghost use Rattle.std.specs.Prelude.{◌≡◌, ◌≢◌, ℕ, ◌<◌, ◌≤◌, ◌*◌, pos, ◌-ℤ◌, ◌++◌, ◌∷◌, [], length, slice_index_or};
ghost use Rattle.std.specs.Prelude.{Option, None, OnOk, OnErr, option_map};
ghost use Rattle.net_defs.specs.Turn.{is_turn, IsTurn};
ghost use Rattle.std.specs.List.{AllByRecursion};
ghost use Rattle.map_defs.specs.NetMap.{MapPort, first_end, second_end, far_port, map_ends};
ghost use Rattle.fabric_map.specs.Growing.{are_near};
ghost use Rattle.fabric_map.specs.Table.{end_of, far_pair, pair_of_end, place_in, port_at};
ghost use Rattle.port_align.specs.Ends.{IsOutside};

use map_defs::MapCable;
use port_align::{NodePort, PortTable};
use std::alloc::{AllocError, Global};
use std::marker::Model;

// The greatest port; the least is its negative.
const MAX_PORT: i8 = 15;

/// Cables by number. A far end is found in constant time.
#[derive(Drop)]
pub(crate) struct Cabling {
    cables: Vec<MapCable>,
    far: PortTable,
}

impl Model for Cabling {
    ghost use Rattle.std.specs.Prelude.{List};
    ghost use Rattle.map_defs.specs.declared.vertex.MapCable.{MapCable};
    ghost use Rattle.fabric_map.specs.Table.{IsTableOf};

    ghost Value = { List MapCable };

    ghost view = { λ c. c.cables.items };

    ghost invariant = { λ c. IsTableOf c.cables.items c.far.items };
}

impl Cabling {
    pub(crate) fn new(alloc: Global) -> Cabling
        ensures { result ≡ [] }
    {
        Cabling {
            cables: Vec::new(alloc),
            far: PortTable::new(alloc),
        }
    }

    pub(crate) fn cables(&self) -> &[MapCable]
        ensures { result.now ≡ self.now }
    {
        &self.cables
    }

    /// The port at the other side of the cable at a port.
    pub(crate) fn far(&self, v: u32, p: i8) -> Option<(u32, i8)>
        ensures { result ≡ far_pair (far_port self.now record { v = v; p = p }) }
    {
        if is_port(p) {
            as_pair(self.far.at_port(v as usize, place_in(p)))
        } else {
            None
        }
    }

    /// The places of a vertex's ports at which a cable may end: from the first one up to the second.
    pub(crate) fn span(&self, v: u32) -> (usize, usize)
        ensures first { result.0 ≤ 31 }
        ensures end { result.1 ≤ 31 }
        ensures outside { (i : ℕ) → i < 31 → IsOutside result.0 result.1 i → far_port self.now (port_at v i) ≡ None }
    {
        self.far.span(v as usize)
    }

    /// Whether each cabled port of the vertex is at most 15 from this port.
    pub(crate) fn are_near(&self, v: u32, p: i8) -> bool
        requires { IsTurn p }
        ensures { result ≡ are_near self.now record { v = v; p = p } }
    {
        let _ = &self.cables;
        let places = self.span(v);
        for k in places.0..places.1 {
            let q = port_at(k);
            if !is_close(q, p) && self.far(v, q).is_some() {
                return false;
            }
        }
        true
    }

    /// Room for so many cables more.
    pub(crate) fn reserve(&mut self, cables: usize) -> Result<(), AllocError>
        ensures { self.new ≡ self.old }
    {
        self.cables.reserve(cables)
    }

    /// Joins two ports that have no cable, at vertices below a number.
    pub(crate) fn push(&mut self, c: MapCable, vertices: usize) -> Result<(), AllocError>
        requires turn_a { IsTurn c.p }
        requires turn_b { IsTurn c.q }
        requires vertex_a { c.v < vertices }
        requires vertex_b { c.w < vertices }
        requires few { vertices ≤ 4294967295 }
        requires free_a { far_port self.old (first_end c) ≡ None }
        requires free_b { far_port self.old (second_end c) ≡ None }
        requires two { first_end c ≢ second_end c }
        ensures ok { OnOk result (self.new ≡ self.old ++ c ∷ []) }
        ensures err { OnErr result (self.new ≡ self.old) }
    {
        self.far.lengthen(vertices)?;
        self.cables.push(c)?;
        self.far
            .set_port(c.v as usize, place_in(c.p), Some(port(c.w, c.q)));
        self.far
            .set_port(c.w as usize, place_in(c.q), Some(port(c.v, c.p)));
        Ok(())
    }

    /// Has these cables in place of its own. The far end of each port stays.
    pub(crate) fn put(&mut self, cables: Vec<MapCable>)
        requires turns { AllByRecursion (λ d. IsTurn d.p) (map_ends cables.items) }
        requires same { (d : MapPort) → far_port cables.items d ≡ far_port self.old d }
        ensures { self.new ≡ cables.items }
    {
        self.cables = cables;
    }
}

// A port of a vertex, as the table keeps it.
fn port(v: u32, p: i8) -> NodePort
    ensures { result ≡ end_of (record { v = v; p = p }) }
{
    NodePort { node: v, port: p }
}

// A far end as a pair of its vertex and its port.
fn as_pair(end: Option<NodePort>) -> Option<(u32, i8)>
    ensures { result ≡ option_map pair_of_end end }
{
    match end {
        Some(end) => Some((end.node, end.port)),
        None => None,
    }
}

// Whether a port is from -15 to 15.
pub(crate) fn is_port(p: i8) -> bool
    ensures { result ≡ is_turn p }
{
    -MAX_PORT <= p && p <= MAX_PORT
}

// Whether two ports are at most 15 apart.
pub(crate) fn is_close(q: i8, p: i8) -> bool
    requires turn_q { IsTurn q }
    requires turn_p { IsTurn p }
    ensures { result ≡ is_turn (q -ℤ p) }
{
    is_port(q - p)
}

// The port at a place of its vertex.
fn port_at(k: usize) -> i8
    requires { k < 31 }
    ensures { result ≡ pos k -ℤ pos 15 }
{
    k as i8 - MAX_PORT
}

// The place of a port among those of its vertex.
fn place_in(p: i8) -> usize
    requires { IsTurn p }
    ensures value { result ≡ place_in p }
    ensures inside { result < 31 }
{
    (p + MAX_PORT) as usize
}
