//! The comparison, from the mapper's host on.

ghost use Rattle.std.specs.Prelude.{◌≡◌, ◌↔◌, ◌<◌, ℕ, ℤ, pos, ◌-ℤ◌, true, false, length, Some, IfOk, OnOk, IfSome};
ghost use Rattle.net_defs.specs.Turn.{IsTurn};
ghost use Rattle.net_defs.specs.Network.{IsFabric};
ghost use Rattle.map_defs.specs.NetMap.{map_far, IsMap};
ghost use Rattle.map_defs.specs.Sameness.{IsMapOfPart};
ghost use Rattle.fabric_map.specs.Table.{far_pair};
ghost use Rattle.map_sameness.specs.Pairing.{image_of, IsPairing, AreCompared, IsSmall, Meets, MeetsBelow, Compares};
ghost use Rattle.map_sameness.specs.Pairing.{is_cabled_at, is_stray, HasStray, HasPlace, may_be, paired};

use crate::pairing::{Image, Pairing};
use fabric_map::FabricMap;
use net_defs::{End, Vertex};
use port_graph::Fabric;
use std::alloc::{AllocError, Global};

/// Whether a map is the same as the part of a fabric that is joined to a host, up to the offset of each switch.
pub fn is_same_as_part(
    alloc: Global,
    m: &FabricMap,
    f: &Fabric,
    host: u16,
) -> Result<bool, AllocError>
    ensures { IfOk result (λ is. (is ≡ true) ↔ IsMapOfPart f.now host m.now) }
{
    let mut pairing = Pairing::new(alloc, m, f, host)?;
    match m.vertex_of_host(host) {
        Some(v) => {
            let itself = Image {
                vertex: Vertex::Host(host),
                offset: 0,
            };
            pairing.put(v, itself)?;
            compare_all(m, f, &mut pairing)
        }
        None => Ok(false),
    }
}

// Compares all that cables join to the mapper's host.
fn compare_all(m: &FabricMap, f: &Fabric, pairing: &mut Pairing) -> Result<bool, AllocError>
    requires pairing { IsPairing f.now m.now pairing.old }
    requires compared { AreCompared f.now m.now pairing.old }
    ensures { IfOk result (λ is. (is ≡ true) ↔ IsMapOfPart f.now pairing.old.host m.now) }
{
    'comparing: while let Some(v) = pairing.next() {
        if !compare(m, f, pairing, v)? {
            return Ok(false);
        }
    }
    Ok(pairing.is_whole())
}

// Whether a vertex of the map has the same cables as its image, if it has one.
#[tactic(auto, using(crate::proofs::Whole::compares_none))]
fn compare(m: &FabricMap, f: &Fabric, pairing: &mut Pairing, v: u32) -> Result<bool, AllocError>
    requires { IsPairing f.now m.now pairing.old }
    ensures same { IfOk result (λ is. is ≡ true → Compares f.now m.now pairing.old pairing.new v) }
    ensures other { IfOk result (λ is. is ≡ false → IsMapOfPart f.now pairing.old.host m.now → ⊥) }
{
    match pairing.image(v) {
        Some(i) => compare_ports(m, f, pairing, v, i),
        None => Ok(true),
    }
}

// Whether a vertex of the map has the same cables as its image.
fn compare_ports(
    m: &FabricMap,
    f: &Fabric,
    pairing: &mut Pairing,
    v: u32,
    i: Image,
) -> Result<bool, AllocError>
    requires pairing { IsPairing f.now m.now pairing.old }
    requires image { image_of pairing.old v ≡ Some i }
    ensures same { IfOk result (λ is. is ≡ true → Compares f.now m.now pairing.old pairing.new v) }
    ensures other { IfOk result (λ is. is ≡ false → IsMapOfPart f.now pairing.old.host m.now → ⊥) }
{
    if has_stray(m, f, v, i) {
        Ok(false)
    } else {
        meet_all(m, f, pairing, v, i)
    }
}

// Whether the far end of each port of an image stands for that of the port in the map.
fn meet_all(
    m: &FabricMap,
    f: &Fabric,
    pairing: &mut Pairing,
    v: u32,
    i: Image,
) -> Result<bool, AllocError>
    requires pairing { IsPairing f.now m.now pairing.old }
    requires image { image_of pairing.old v ≡ Some i }
    ensures met { IfOk result (λ is. is ≡ true → (p : ℕ) → Meets f.now m.now pairing.old pairing.new v i p) }
    ensures other { IfOk result (λ is. is ≡ false → IsMapOfPart f.now pairing.old.host m.now → ⊥) }
{
    for port in 0..f.ports(i.vertex) {
        if !meet(m, f, pairing, v, i, port)? {
            return Ok(false);
        }
    }
    Ok(true)
}

// Whether the far end of a port of an image stands for that of the port in the map: from now on, if it may.
#[tactic(auto, using(crate::proofs::Meeting::none_meets))]
fn meet(
    m: &FabricMap,
    f: &Fabric,
    pairing: &mut Pairing,
    v: u32,
    i: Image,
    port: u8,
) -> Result<bool, AllocError>
    requires pairing { IsPairing f.now m.now pairing.old }
    requires image { image_of pairing.old v ≡ Some i }
    ensures met { IfOk result (λ is. is ≡ true → Meets f.now m.now pairing.old pairing.new v i port) }
    ensures other { IfOk result (λ is. is ≡ false → IsMapOfPart f.now pairing.old.host m.now → ⊥) }
{
    match f.far(i.vertex, port) {
        Some(end) => match far_in_map(m, v, i, port) {
            Some(other) => pair_far(m, pairing, other, end),
            None => Ok(false),
        },
        None => Ok(true),
    }
}

// Pairs a far end of the map with one of the fabric, if they may be paired.
fn pair_far(
    m: &FabricMap,
    pairing: &mut Pairing,
    other: (u32, i8),
    end: End,
) -> Result<bool, AllocError>
    requires vertex { other.0 < length pairing.old.images }
    requires place { HasPlace pairing.old end.v }
    requires turn { IsTurn other.1 }
    ensures is { IfOk result (λ is. is ≡ may_be m.now pairing.old other.0 record {
      vertex = end.v;
      offset = pos end.p -ℤ other.1;
    }) }
    ensures pairs { OnOk result (pairing.new ≡ paired m.now pairing.old other.0 record {
      vertex = end.v;
      offset = pos end.p -ℤ other.1;
    }) }
    ensures small { IsSmall (pos end.p -ℤ other.1) }
{
    let image = Image {
        vertex: end.v,
        offset: i16::from(end.p) - i16::from(other.1),
    };
    pairing.pair(m, other.0, image)
}

// The port at the other end of the cable at the port of the map that stands for a port of an image.
fn far_in_map(m: &FabricMap, v: u32, i: Image, port: u8) -> Option<(u32, i8)>
    requires map { IsMap m.now }
    requires small { IsSmall i.offset }
    ensures port { result ≡ far_pair (map_far m.now record { v = v; p = pos port -ℤ i.offset }) }
    ensures there { IfSome result (λ e. (e.0 < length m.now.vertices) × IsTurn e.1) }
{
    map_far(m, v, i16::from(port) - i.offset)
}

// The port at the other end of the cable at a port of the map, whatever its number.
#[tactic(auto, using(crate::proofs::Loops::far_low, crate::proofs::Loops::far_high))]
fn map_far(m: &FabricMap, v: u32, p: i16) -> Option<(u32, i8)>
    requires { IsMap m.now }
    ensures port { result ≡ far_pair (map_far m.now record { v = v; p = p }) }
    ensures there { IfSome result (λ e. (e.0 < length m.now.vertices) × IsTurn e.1) }
{
    if p < -15 {
        None
    } else if p <= 15 {
        m.map_far(v, p as i8)
    } else {
        None
    }
}

// Whether some port of the map has a cable, and its image none.
fn has_stray(m: &FabricMap, f: &Fabric, v: u32, i: Image) -> bool
    requires fabric { IsFabric f.now }
    requires map { IsMap m.now }
    requires small { IsSmall i.offset }
    ensures stray { result ≡ true → HasStray f.now m.now v i }
    ensures none { result ≡ false → (p : ℤ) → is_stray f.now m.now v i p ≡ false }
{
    let places = m.span(v);
    for place in places.0..places.1 {
        if is_stray(m, f, v, i, port_at(place)) {
            return true;
        }
    }
    false
}

// The port at a place of its vertex.
fn port_at(place: usize) -> i16
    requires { place < 31 }
    ensures port { result ≡ pos place -ℤ pos 15 }
    ensures turn { IsTurn result }
{
    place as i16 - 15
}

// Whether a port of the map has a cable, and its image none.
fn is_stray(m: &FabricMap, f: &Fabric, v: u32, i: Image, p: i16) -> bool
    requires fabric { IsFabric f.now }
    requires map { IsMap m.now }
    requires small { IsSmall i.offset }
    requires turn { IsTurn p }
    ensures { result ≡ is_stray f.now m.now v i p }
{
    map_far(m, v, p).is_some() && !is_cabled_at(f, i.vertex, p + i.offset)
}

// Whether a port of a vertex of the fabric has a cable, whatever its number.
#[tactic(auto, using(crate::proofs::Loops::cabled_low, crate::proofs::Loops::cabled_high))]
fn is_cabled_at(f: &Fabric, x: Vertex, p: i16) -> bool
    requires { IsFabric f.now }
    ensures { result ≡ is_cabled_at f.now x p }
{
    if p < 0 {
        false
    } else if p < i16::from(f.ports(x)) {
        f.far(x, p as u8).is_some()
    } else {
        false
    }
}
