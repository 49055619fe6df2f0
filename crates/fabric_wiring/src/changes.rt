//! Cables are pulled, plugged and accepted.

ghost use Rattle.std.specs.Prelude.{◌≡◌, ◌<◌, ◌+◌, ◌/◌, true, false, length, slice_get, slice_set, Some, None};
ghost use Rattle.std.specs.Prelude.{option_map};
ghost use Rattle.std.specs.Prelude.{IfOk, OnOk, OnErr, if◌then◌else◌, is_some, ◌||◌};
ghost use Rattle.net_defs.specs.Network.{has_port, same_end};
ghost use Rattle.world_defs.specs.History.{fabric_now, may_plug, with_plugged, with_accepted};
ghost use Rattle.world_defs.specs.Crossed.{leaving, pulled_at};

use crate::tables::{entry_by, put_port, wire_at};
use crate::wiring::Wiring;
use net_defs::{Cable, End};
use std::alloc::AllocError;
use world_defs::Wire;

// The most cables that are ever named.
const CABLE_LIMIT: usize = 4096;

impl Wiring {
    /// Takes out the cable at a port, and answers its number: none exactly where the port has none. It takes no
    /// memory.
    pub fn pull(&mut self, e: End) -> Option<u16>
        ensures number { result ≡ option_map (λ c. c / 2) (leaving self.old e) }
        ensures history { self.new ≡ pulled_at self.old e }
    {
        let Some(c) = self.channel_from(e) else {
            return None;
        };
        let k = c / 2;
        let wire = wire_at(&self.wires, usize::from(k));
        self.changes += 1;
        date(&mut self.wires, usize::from(k), self.changes);
        put_port(&mut self.out, &mut self.hops, wire.cable.b, None);
        put_port(&mut self.out, &mut self.hops, wire.cable.a, None);
        Some(k)
    }

    /// Joins two ports by a new cable: false exactly where one of them isn't there or has a cable, the two are equal,
    /// or 4,096 cables were named. Where memory runs out nothing has changed.
    pub fn plug(&mut self, a: End, b: End) -> Result<bool, AllocError>
        ensures plugged { IfOk result (λ plugged. plugged ≡ may_plug self.old a b) }
        ensures history { OnOk result (self.new ≡ (if may_plug self.old a b then with_plugged self.old a b
            else self.old)) }
        ensures err { OnErr result (self.new ≡ self.old) }
    {
        if !self.may_plug(a, b) {
            return Ok(false);
        }
        self.wires.reserve(1)?;
        self.entries.reserve(2)?;
        let k = self.wires.len() as u16;
        self.changes += 1;
        self.wires.push_reserved(new_wire(a, b, self.changes));
        self.entries.push_reserved(entry_by(&self.ports, b));
        self.entries.push_reserved(entry_by(&self.ports, a));
        put_port(&mut self.out, &mut self.hops, b, Some(2 * k + 1));
        put_port(&mut self.out, &mut self.hops, a, Some(2 * k));
        Ok(true)
    }

    /// Accepts the cables in place: none is new any more.
    pub fn accept(&mut self)
        ensures { self.new ≡ with_accepted self.old }
    {
        self.accepted = self.changes;
    }

    /// How many times a cable was pulled or plugged.
    pub fn changes(&self) -> u16
        ensures { result ≡ self.now.changes }
    {
        self.changes
    }

    /// Whether two ports may be joined: both are there, neither has a cable, they aren't one, and fewer than 4,096
    /// cables were named.
    pub fn may_plug(&self, a: End, b: End) -> bool
        ensures { result ≡ may_plug self.now a b }
    {
        self.has_port(a) && self.has_port(b) && self.may_join(a, b)
    }

    // Whether two ports that are there may be joined.
    fn may_join(&self, a: End, b: End) -> bool
        requires port_a { has_port (fabric_now self.now) a ≡ true }
        requires port_b { has_port (fabric_now self.now) b ≡ true }
        ensures { result ≡ may_plug self.now a b }
    {
        !self.is_used(a, b) && self.wires.len() < CABLE_LIMIT
    }

    // Whether one of the ports has a cable, or both are one.
    fn is_used(&self, a: End, b: End) -> bool
        ensures { result ≡ (is_some (leaving self.now a) || is_some (leaving self.now b) || same_end a b) }
    {
        self.channel_from(a).is_some() || self.channel_from(b).is_some() || a == b
    }
}

// A cable that a change plugs.
fn new_wire(a: End, b: End, change: u16) -> Wire
    ensures { result ≡ record { cable = record { a = a; b = b }; plugged = change; pulled = None } }
{
    Wire {
        cable: Cable { a, b },
        plugged: change,
        pulled: None,
    }
}

// A change pulls the cable at a place.
fn date(wires: &mut Vec<Wire>, k: usize, change: u16)
    requires { k < length wires.old.items }
    ensures { (w : Wire) → slice_get wires.old.items k ≡ Some w
        → wires.new.items ≡ slice_set wires.old.items k (record w { pulled = Some change }) }
{
    wires[k].pulled = Some(change);
}
