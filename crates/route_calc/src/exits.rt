//! The ports by which a packet goes on: a list of the cabled ones for each vertex, made once for a map.

ghost use Rattle.std.specs.Prelude.{◌≡◌, ◌<◌, ◌≤◌, ◌++◌, length, All, IfSome, IfOk, OnOk, option_to_list};
ghost use Rattle.net_defs.specs.Turn.{IsTurn};
ghost use Rattle.map_defs.specs.Orientation.{order_of, is_up};
ghost use Rattle.updown.specs.Oriented.{orientation_of};
ghost use Rattle.route_calc.specs.Ways.{entered_by};
ghost use Rattle.route_calc.specs.Exits.{IsInRange, exit_at, exits_of, all_exits};

use crate::entered::{Entered, Exit};
use fabric_map::FabricMap;
use std::alloc::{AllocError, Global};
use std::marker::Model;
use updown::Orientation;

// The ports that a vertex may have.
const PORTS: usize = 31;

// The greatest port; the least is its negative.
const MAX_PORT: i8 = 15;

/// The cabled ports of one vertex, from the least on. Contracts see the list of them.
#[derive(Drop)]
pub(crate) struct Exits {
    list: Vec<Exit>,
}

impl Model for Exits {
    ghost use Rattle.std.specs.Prelude.{List, ◌≤◌, length, All};
    ghost use Rattle.route_calc.specs.declared.entered.Exit.{Exit};
    ghost use Rattle.route_calc.specs.Exits.{IsInRange};

    ghost Value = { List Exit };

    ghost view = { λ e. e.list.items };

    ghost invariant = { λ e. All IsInRange e.list.items × (length e.list.items ≤ 31) };
}

impl Exits {
    /// The cabled ports of a vertex.
    fn of(alloc: Global, m: &FabricMap, o: &Orientation, v: u32) -> Result<Exits, AllocError>
        requires { o.now ≡ orientation_of m.now }
        ensures { IfOk result (λ e. e ≡ exits_of m.now (order_of m.now) v) }
    {
        let mut list = Vec::new(alloc);
        for k in 0..PORTS {
            push_some(&mut list, exit_at(m, o, v, k))?;
        }
        Ok(Exits { list })
    }

    /// The ports, from the least on.
    pub(crate) fn list(&self) -> &[Exit]
        ensures value { result.now ≡ self.now }
        ensures range { All IsInRange result.now }
        ensures few { length result.now ≤ 31 }
    {
        &self.list
    }
}

/// The cabled ports of each vertex.
pub(crate) fn all_exits(
    alloc: Global,
    m: &FabricMap,
    o: &Orientation,
) -> Result<Vec<Exits>, AllocError>
    requires { o.now ≡ orientation_of m.now }
    ensures { IfOk result (λ es. es.items ≡ all_exits m.now (order_of m.now)) }
{
    let mut exits = Vec::new(alloc);
    for v in 0..m.vertices().len() {
        let own = Exits::of(alloc, m, o, v as u32)?;
        exits.push(own)?;
    }
    Ok(exits)
}

// Adds a port, if there is one.
fn push_some(list: &mut Vec<Exit>, exit: Option<Exit>) -> Result<(), AllocError>
    requires old { All IsInRange list.old.items }
    requires range { IfSome exit IsInRange }
    ensures value { OnOk result (list.new.items ≡ list.old.items ++ option_to_list exit) }
    ensures range { All IsInRange list.new.items }
{
    if let Some(exit) = exit {
        list.push(exit)?;
    }
    Ok(())
}

// The port at a place, where a cable is at it.
fn exit_at(m: &FabricMap, o: &Orientation, v: u32, k: usize) -> Option<Exit>
    requires oriented { o.now ≡ orientation_of m.now }
    requires place { k < 31 }
    ensures value { result ≡ exit_at m.now (order_of m.now) v k }
    ensures range { IfSome result IsInRange }
{
    let port = k as i8 - MAX_PORT;
    match entered_by(m, o, v, port) {
        None => None,
        Some(next) => Some(Exit { port, next }),
    }
}

/// Where the channel that leaves by a port leads.
pub(crate) fn entered_by(m: &FabricMap, o: &Orientation, v: u32, p: i8) -> Option<Entered>
    requires { o.now ≡ orientation_of m.now }
    ensures value { result ≡ entered_by m.now (order_of m.now) record { v = v; p = p } }
    ensures port { IfSome result (λ e. IsTurn e.port) }
{
    match m.map_far(v, p) {
        None => None,
        Some((w, port)) => Some(Entered {
            v: w,
            port,
            down: !is_up(m, o, v, p),
        }),
    }
}

// Whether the channel that leaves by a port is up.
fn is_up(m: &FabricMap, o: &Orientation, v: u32, p: i8) -> bool
    requires { o.now ≡ orientation_of m.now }
    ensures { result ≡ is_up m.now (order_of m.now) record { v = v; p = p } }
{
    let _ = m.vertices();
    o.is_up(v, p)
}
