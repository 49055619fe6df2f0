//! The ways to one host.

ghost use Rattle.std.specs.Prelude.{◌≡◌, ◌<◌, ◌*◌, true, All, length, pos, slice_get, slice_index_or, IfOk, IfSome};
ghost use Rattle.std.specs.Prelude.{OnOk};
ghost use Rattle.net_defs.specs.Turn.{IsTurn};
ghost use Rattle.map_defs.specs.Orientation.{order_of};
ghost use Rattle.updown.specs.Oriented.{orientation_of};
ghost use Rattle.route_calc.specs.Exits.{IsInRange, all_exits, exits_at};
ghost use Rattle.route_calc.specs.Far.{AreDistances, far_at, place_in};
ghost use Rattle.route_calc.specs.Firsts.{AreFirst, FallByOne};
ghost use Rattle.route_calc.specs.Lowering.{AreNumbered};
ghost use Rattle.route_calc.specs.Turning.{turns_on};
ghost use Rattle.route_calc.specs.Ways.{entered_by};

use crate::distances::{distances, far_at, place_of};
use crate::entered::{Entered, Exit};
use crate::exits::{Exits, entered_by};
use crate::firsts::firsts;
use fabric_map::FabricMap;
use std::alloc::{AllocError, Global};
use std::marker::Model;
use updown::Orientation;

/// A host with its vertex, where its cable leads, how far each vertex is from it, and by which of its ports the way
/// goes on from each.
#[derive(Drop)]
pub(crate) struct Ways {
    host: u16,
    vertex: u32,
    start: Option<Entered>,
    far: Vec<u8>,
    firsts: Vec<u8>,
}

impl Model for Ways {
    ghost use Rattle.route_calc.specs.Hosts.{HostWays};

    ghost Value = { HostWays };

    ghost view = { λ w. record {
      host = w.host;
      vertex = w.vertex;
      start = w.start;
      far = w.far.items;
      firsts = w.firsts.items;
    } };
}

impl Ways {
    /// The ways to a host.
    pub(crate) fn to(
        alloc: Global,
        m: &FabricMap,
        o: &Orientation,
        exits: &[Exits],
        numbered: bool,
        host: u16,
        vertex: u32,
    ) -> Result<Ways, AllocError>
        requires oriented { o.now ≡ orientation_of m.now }
        requires exits { exits.now ≡ all_exits m.now (order_of m.now) }
        requires numbered { numbered ≡ true → AreNumbered m.now (order_of m.now) }
        requires vertex { vertex < length m.now.vertices }
        ensures host { IfOk result (λ w. w.host ≡ host) }
        ensures vertex { IfOk result (λ w. w.vertex ≡ vertex) }
        ensures start { IfOk result (λ w. w.start ≡ entered_by m.now (order_of m.now) record {
          v = vertex;
          p = pos 0;
        }) }
        ensures distances { IfOk result (λ w. AreDistances m.now (order_of m.now) vertex w.far) }
        ensures long { IfOk result (λ w. length w.far ≡ 2 * length m.now.vertices) }
        ensures firsts { IfOk result (λ w. length w.firsts ≡ length w.far) }
        ensures first { IfOk result (λ w. AreFirst exits.now w.far w.firsts) }
    {
        let far = distances(alloc, m, exits, numbered, vertex)?;
        let firsts = firsts(alloc, exits, &far)?;
        Ok(Ways {
            host,
            vertex,
            start: entered_by(m, o, vertex, 0),
            far,
            firsts,
        })
    }

    /// The ways to a host and its vertex, of these parts.
    pub(crate) fn of(
        host: (u16, u32),
        start: Option<Entered>,
        far: Vec<u8>,
        firsts: Vec<u8>,
    ) -> Ways
        ensures { result ≡ record {
          host = host.0;
          vertex = host.1;
          start = start;
          far = far.items;
          firsts = firsts.items;
        } }
    {
        Ways {
            host: host.0,
            vertex: host.1,
            start,
            far,
            firsts,
        }
    }

    /// The host's vertex.
    pub(crate) fn vertex(&self) -> u32
        ensures { result ≡ self.now.vertex }
    {
        self.vertex
    }

    /// The distances of all places.
    pub(crate) fn far(&self) -> &[u8]
        ensures { result.now ≡ self.now.far }
    {
        &self.far
    }

    /// The numbers of the first ports of all places.
    pub(crate) fn firsts(&self) -> &[u8]
        ensures { result.now ≡ self.now.firsts }
    {
        &self.firsts
    }

    pub(crate) fn host(&self) -> u16
        ensures { result ≡ self.now.host }
    {
        self.host
    }

    /// Where the host's cable leads.
    pub(crate) fn start(&self) -> Option<Entered>
        ensures { result ≡ self.now.start }
    {
        self.start
    }

    /// The fewest channels from a vertex, to a packet that went down already, or didn't.
    pub(crate) fn distance(&self, v: u32, down: bool) -> u8
        ensures { result ≡ far_at self.now.far v down }
    {
        far_at(&self.far, v, down)
    }

    /// The least turns from where a packet is, as many as its distance, in the place of others.
    pub(crate) fn turns(
        &self,
        exits: &[Exits],
        start: Entered,
        count: u8,
        turns: &mut Vec<i8>,
    ) -> Result<(), AllocError>
        requires port { IsTurn start.port }
        requires first { AreFirst exits.now self.now.far self.now.firsts }
        requires fall { FallByOne exits.now self.now.far }
        requires distance { far_at self.now.far start.v start.down ≡ count }
        requires few { count < 255 }
        ensures { OnOk result (turns.new.items ≡ turns_on exits.now self.now.far count start) }
    {
        turns.clear();
        let mut at = start;
        let mut left = count;
        while left > 0 {
            left -= 1;
            match exit_by(exits, &self.firsts, at) {
                None => return Ok(()),
                Some(exit) => {
                    turns.push(exit.port - at.port)?;
                    at = exit.next;
                }
            }
        }
        Ok(())
    }
}

// The port by which the way goes on from where a packet is.
fn exit_by(exits: &[Exits], firsts: &[u8], at: Entered) -> Option<Exit>
    ensures value { result ≡ slice_get (exits_at exits.now at.v) (slice_index_or firsts.now (place_in at.v at.down) 0) }
    ensures range { IfSome result IsInRange }
{
    let v = at.v as usize;
    if v < exits.len() {
        exit_in(exits[v].list(), first_at(firsts, place_of(at.v, at.down)))
    } else {
        None
    }
}

// The port of this number.
fn exit_in(exits: &[Exit], k: u8) -> Option<Exit>
    requires { All IsInRange exits.now }
    ensures value { result ≡ slice_get exits.now k }
    ensures range { IfSome result IsInRange }
{
    let k = usize::from(k);
    if k < exits.len() {
        Some(exits[k])
    } else {
        None
    }
}

// What stands at a place.
fn first_at(firsts: &[u8], place: usize) -> u8
    ensures { result ≡ slice_index_or firsts.now place 0 }
{
    if place < firsts.len() {
        firsts[place]
    } else {
        0
    }
}
