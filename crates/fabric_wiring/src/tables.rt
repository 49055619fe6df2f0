//! The tables of a wiring: building them, reading them, and putting a channel at a port.

ghost use Rattle.std.specs.Prelude.{◌≡◌, ◌<◌, ◌≤◌, ℕ, ◌+◌, ◌*◌, slice_get, slice_set, replicate, length, map, true};
ghost use Rattle.std.specs.Prelude.{Some, None};
ghost use Rattle.std.specs.Prelude.{slice_index_or, IfOk, IfSome};
ghost use Rattle.std.specs.List.{AllByRecursion};
ghost use Rattle.net_defs.specs.Network.{ends_of};
ghost use Rattle.world_defs.specs.History.{first_wire};
ghost use Rattle.port_graph.specs.Table.{is_possible, place_of_end};
ghost use Rattle.fabric_wiring.specs.Tables.{IsOutTable, place_if_possible, with_cable, count_at, entry_by, entries_of};
ghost use Rattle.fabric_wiring.specs.Hops.{with_hop};

use crate::hops::{ROW, hops_from, put_hop};
use crate::wiring::Entry;
use net_defs::{Cable, End, Vertex};
use port_graph::Fabric;
use std::alloc::{AllocError, Global};
use world_defs::Wire;

// Where the switches' ports begin in the table of channels that leave by a port.
pub(crate) const HOST_PLACES: usize = 128;

// The places of one switch.
pub(crate) const PORT_PLACES: usize = 16;

// The places of the table.
pub(crate) const PLACES: usize = HOST_PLACES + 64 * PORT_PLACES;

/// The cables of a fabric, before any change.
pub(crate) fn wires_of(alloc: Global, f: &Fabric) -> Result<Vec<Wire>, AllocError>
    ensures { IfOk result (λ v. v.items ≡ map first_wire f.now.cables) }
{
    let mut wires = Vec::with_capacity(alloc, usize::from(f.cables()))?;
    for k in 0..f.cables() {
        wires.push(first_wire(f.cable(k)))?;
    }
    Ok(wires)
}

// A cable that was there before any change.
fn first_wire(cable: Cable) -> Wire
    ensures { result ≡ first_wire cable }
{
    Wire {
        cable,
        plugged: 0,
        pulled: None,
    }
}

/// How many ports each switch of a fabric has.
pub(crate) fn ports_of(alloc: Global, f: &Fabric) -> Result<Vec<u8>, AllocError>
    ensures { IfOk result (λ v. v.items ≡ map (λ s. s.ports) f.now.switches) }
{
    let mut ports = Vec::with_capacity(alloc, usize::from(f.switches()))?;
    for s in 0..f.switches() {
        ports.push(f.ports(Vertex::Switch(s)))?;
    }
    Ok(ports)
}

/// The end that each channel of these cables enters.
pub(crate) fn entries_of(
    alloc: Global,
    ports: &[u8],
    wires: &[Wire],
) -> Result<Vec<Entry>, AllocError>
    requires few { length wires.now ≤ 576 }
    requires few_ports { length ports.now ≤ 64 }
    ensures { IfOk result (λ v. v.items ≡ entries_of ports.now wires.now) }
{
    let mut entries = Vec::with_capacity(alloc, 2 * wires.len())?;
    for k in 0..wires.len() {
        let cable = wire_at(wires, k).cable;
        entries.push(entry_by(ports, cable.b))?;
        entries.push(entry_by(ports, cable.a))?;
    }
    Ok(entries)
}

/// The entry by an end.
pub(crate) fn entry_by(ports: &[u8], end: End) -> Entry
    requires { length ports.now ≤ 64 }
    ensures { result ≡ entry_by ports.now end }
{
    Entry {
        end,
        ports: count_at(ports, end.v),
        hops: hops_from(ports.len() as u16, end),
    }
}

// How many ports a vertex has.
fn count_at(ports: &[u8], v: Vertex) -> u8
    ensures { result ≡ count_at ports.now v }
{
    match v {
        Vertex::Host(_) => 1,
        Vertex::Switch(s) => port_count(ports, usize::from(s)),
    }
}

/// How many ports a switch has.
pub(crate) fn port_count(ports: &[u8], s: usize) -> u8
    ensures { result ≡ slice_index_or ports.now s 0 }
{
    if s < ports.len() { ports[s] } else { 0 }
}

/// The channels that leave by each port of a fabric. The last cable is written first, so that a port has the channel
/// of its first cable.
pub(crate) fn out_table(alloc: Global, f: &Fabric) -> Result<Vec<Option<u16>>, AllocError>
    requires { AllByRecursion (λ e. is_possible e ≡ true) (ends_of f.now.cables) }
    ensures { IfOk result (λ v. IsOutTable 0 f.now.cables v.items) }
{
    let mut out = nones(alloc, PLACES)?;
    let mut k = f.cables();
    while k > 0 {
        k -= 1;
        put_cable(&mut out, usize::from(k), f.cable(k));
    }
    Ok(out)
}

// So many places without a channel.
fn nones(alloc: Global, places: usize) -> Result<Vec<Option<u16>>, AllocError>
    ensures { IfOk result (λ v. v.items ≡ replicate places None) }
{
    let mut out = Vec::with_capacity(alloc, places)?;
    while out.len() < places {
        out.push(None)?;
    }
    Ok(out)
}

// Puts the channels of a cable into the table. The one from its first end is put last.
fn put_cable(out: &mut Vec<Option<u16>>, k: usize, cable: Cable)
    requires few { k < 576 }
    requires size { length out.old.items ≡ PLACES }
    requires possible_a { is_possible cable.a ≡ true }
    requires possible_b { is_possible cable.b ≡ true }
    ensures { out.new.items ≡ with_cable k cable out.old.items }
{
    out[place_of(cable.b)] = Some(2 * k as u16 + 1);
    out[place_of(cable.a)] = Some(2 * k as u16);
}

/// Puts a channel, or none, at a port, in the table of ports and in that of hops.
pub(crate) fn put_port(
    out: &mut Vec<Option<u16>>,
    hops: &mut Vec<Option<u16>>,
    e: End,
    to: Option<u16>,
)
    requires possible { is_possible e ≡ true }
    requires size { length out.old.items ≡ PLACES }
    requires room { (s : ℕ) → e.v ≡ Vertex.Switch s → 80 * s + e.p + 64 < length hops.old.items }
    ensures ports { out.new.items ≡ slice_set out.old.items (place_of_end e) to }
    ensures hops { hops.new.items ≡ with_hop e.v e.p to hops.old.items }
{
    out[place_of(e)] = to;
    if let Vertex::Switch(s) = e.v {
        put_hop(hops, ROW * usize::from(s) + usize::from(e.p), to);
    }
}

/// The cable at a place.
pub(crate) fn wire_at(wires: &[Wire], k: usize) -> Wire
    requires { k < length wires.now }
    ensures { slice_get wires.now k ≡ Some result }
{
    wires[k]
}

/// The entry at a place.
pub(crate) fn entry_at(entries: &[Entry], c: usize) -> Entry
    requires { c < length entries.now }
    ensures { slice_get entries.now c ≡ Some result }
{
    entries[c]
}

/// The channel at a place.
pub(crate) fn channel_at(out: &[Option<u16>], place: usize) -> Option<u16>
    requires { place < length out.now }
    ensures { result ≡ slice_index_or out.now place None }
{
    out[place]
}

/// The place of an end, if some fabric may have it.
pub(crate) fn possible_place(e: End) -> Option<usize>
    ensures place { result ≡ place_if_possible e }
    ensures within { IfSome result (λ place. place < PLACES) }
{
    let possible = match e.v {
        Vertex::Host(h) => h < 128 && e.p < 1,
        Vertex::Switch(s) => s < 64 && e.p < 16,
    };
    if possible { Some(place_of(e)) } else { None }
}

// The place of an end.
fn place_of(e: End) -> usize
    ensures place { result ≡ place_of_end e }
    ensures within { is_possible e ≡ true → result < PLACES }
{
    match e.v {
        Vertex::Host(h) => usize::from(h),
        Vertex::Switch(s) => switch_place(s, e.p),
    }
}

/// The place of a switch's port.
pub(crate) fn switch_place(s: u16, p: u8) -> usize
    ensures { result ≡ place_of_end (record { v = Vertex.Switch s; p = p }) }
{
    HOST_PLACES + PORT_PLACES * usize::from(s) + usize::from(p)
}
