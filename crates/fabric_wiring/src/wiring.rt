//! The wiring of a fabric in flat tables.

ghost use Rattle.std.specs.Prelude.{◌≡◌, ◌<◌, ◌≤◌, ℕ, ◌*◌, ◌/◌, length, slice_get, true, false, not, nat_eq};
ghost use Rattle.std.specs.Prelude.{Some, None, IfOk, IfSome};
ghost use Rattle.net_defs.specs.Network.{has_port, is_port_count, ports_of, IsFabric};
ghost use Rattle.world_defs.specs.History.{first_history, fabric_now, IsHistory};
ghost use Rattle.world_defs.specs.Crossed.{leaving, life_channels, life_tail, life_head, is_new};
ghost use Rattle.fabric_wiring.specs.Hops.{next_channel};

use crate::hops::{hop_table, last_six};
use crate::tables::{
    channel_at, entries_of, entry_at, out_table, port_count, ports_of, possible_place,
    switch_place, wire_at, wires_of,
};
use net_defs::{End, Vertex};
use port_graph::Fabric;
use std::alloc::{AllocError, Global};
use std::marker::Model;
use std::snapshot::Snapshot;
use world_defs::Wire;

/// The end that a channel enters, with the number of its vertex's ports.
#[derive(Clone, Copy, Debug)]
pub struct Entry {
    /// The end.
    pub end: End,
    /// The ports of the host or the switch that is entered.
    pub ports: u8,
    // Where turn 0 of what enters so stands in the table of hops.
    pub(crate) hops: u32,
}

/// The cables of a fabric as they come and go, the end that each channel enters, and the channel that leaves by each
/// port. Contracts see the history of the cables.
#[derive(Drop)]
pub struct Wiring {
    // The fabric before any change, whose hosts and switches stay. It has no bytes: contracts alone read it.
    pub(crate) first: Snapshot<Fabric>,
    pub(crate) hosts: u16,
    // How many ports each switch has.
    pub(crate) ports: Vec<u8>,
    pub(crate) wires: Vec<Wire>,
    pub(crate) changes: u16,
    // The number of changes when the cables were accepted last.
    pub(crate) accepted: u16,
    pub(crate) entries: Vec<Entry>,
    pub(crate) out: Vec<Option<u16>>,
    // Which channel is entered by a turn. A hop looks here alone.
    pub(crate) hops: Vec<Option<u16>>,
}

impl Model for Wiring {
    ghost use Rattle.world_defs.specs.History.{CableHistory};
    ghost use Rattle.fabric_wiring.specs.Tables.{IsWiring, history_of};

    ghost Value = { CableHistory };

    ghost view = { λ w. history_of w.first.value w.wires.items w.changes w.accepted };

    ghost invariant = { λ w. IsWiring (history_of w.first.value w.wires.items w.changes w.accepted)
        w.hosts w.ports.items w.entries.items w.out.items w.hops.items };
}

impl Wiring {
    /// The wiring of a fabric, before any change.
    pub fn new(alloc: Global, f: &Fabric) -> Result<Wiring, AllocError>
        ensures { IfOk result (λ w. w ≡ first_history f.now) }
    {
        let hosts = f.hosts();
        let ports = ports_of(alloc, f)?;
        let wires = wires_of(alloc, f)?;
        let entries = entries_of(alloc, &ports, &wires)?;
        let out = out_table(alloc, f)?;
        let hops = hop_table(alloc, &out, f.switches())?;
        Ok(Wiring {
            first: Snapshot::of(f),
            hosts,
            ports,
            wires,
            changes: 0,
            accepted: 0,
            entries,
            out,
            hops,
        })
    }

    /// Whether the fabric has the vertex, and the vertex the port.
    pub(crate) fn has_port(&self, e: End) -> bool
        ensures { result ≡ has_port (fabric_now self.now) e }
    {
        match e.v {
            Vertex::Host(h) => h < self.hosts && e.p < 1,
            Vertex::Switch(s) => e.p < port_count(&self.ports, usize::from(s)),
        }
    }

    /// The number of channels, those of pulled cables too.
    pub fn channels(&self) -> usize
        ensures count { result ≡ life_channels self.now }
        ensures few { result ≤ 8192 }
    {
        2 * self.wires.len()
    }

    /// The end that a channel leaves.
    pub fn tail(&self, c: u16) -> End
        requires { c < life_channels self.now }
        ensures { life_tail self.now c ≡ Some result }
    {
        let cable = wire_at(&self.wires, usize::from(c / 2)).cable;
        if c % 2 == 0 { cable.a } else { cable.b }
    }

    /// The end that a channel enters.
    pub fn head(&self, c: u16) -> End
        requires { c < life_channels self.now }
        ensures end { life_head self.now c ≡ Some result }
        ensures there { has_port (fabric_now self.now) result ≡ true }
    {
        self.entry(c).end
    }

    /// Whether a cable was pulled or plugged since the cables were accepted: where none was, no cable is new.
    pub fn has_changed(&self) -> bool
        ensures changed { result ≡ not (nat_eq self.now.changes self.now.accepted) }
        ensures old { result ≡ false → (c : ℕ) → is_new self.now c ≡ false }
    {
        self.changes != self.accepted
    }

    /// The cable of a number, with the changes that plugged and pulled it.
    pub fn wire(&self, k: u16) -> Wire
        requires { k < length self.now.wires }
        ensures { slice_get self.now.wires k ≡ Some result }
    {
        wire_at(&self.wires, usize::from(k))
    }

    /// Whether a channel's cable was plugged since the cables were accepted. It looks at no cable where nothing has
    /// changed since.
    pub fn is_new(&self, c: u16) -> bool
        requires { c < life_channels self.now }
        ensures { result ≡ is_new self.now c }
    {
        if !self.has_changed() {
            return false;
        }
        self.accepted < wire_at(&self.wires, usize::from(c / 2)).plugged
    }

    /// The end that a channel enters, with the number of its vertex's ports. One look into a table.
    pub fn entry(&self, c: u16) -> Entry
        requires { c < life_channels self.now }
        ensures end { life_head self.now c ≡ Some result.end }
        ensures ports { result.ports ≡ ports_of (fabric_now self.now) result.end.v }
        ensures there { has_port (fabric_now self.now) result.end ≡ true }
        ensures switch { (s : ℕ) → result.end.v ≡ Vertex.Switch s → is_port_count result.ports ≡ true }
    {
        entry_at(&self.entries, usize::from(c))
    }

    /// The channel that leaves by an end, over a cable in place.
    pub fn channel_from(&self, e: End) -> Option<u16>
        ensures channel { result ≡ leaving self.now e }
        ensures there { IfSome result (λ c. c < life_channels self.now) }
        ensures fabric { IsFabric (fabric_now self.now) }
        ensures history { IsHistory self.now }
    {
        match possible_place(e) {
            Some(place) => channel_at(&self.out, place),
            None => None,
        }
    }

    /// The channel that leaves a switch by one of its ports.
    pub fn leaving(&self, s: u16, p: u8) -> Option<u16>
        requires { has_port (fabric_now self.now) (record { v = Vertex.Switch s; p = p }) ≡ true }
        ensures { result ≡ leaving self.now (record { v = Vertex.Switch s; p = p }) }
    {
        channel_at(&self.out, switch_place(s, p))
    }

    /// The channel that a packet enters which leaves a channel with this byte in front, if it enters one: a look into
    /// one table, whatever the vertex ahead.
    pub fn next(&self, c: u16, byte: u8) -> Option<u16>
        requires { c < life_channels self.now }
        ensures { result ≡ next_channel self.now c byte }
    {
        let entry = entry_at(&self.entries, usize::from(c));
        match last_six(byte) {
            Some(six) => channel_at(&self.hops, entry.hops as usize + six),
            None => None,
        }
    }
}
