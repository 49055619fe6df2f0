//! A line of a map: its words, and what they declare or their first fault.

ghost use Rattle.std.specs.Prelude.{◌≡◌, ◌∷◌, [], Some, IsErrOf, IsOk, codes, option_map};
ghost use Rattle.fab_text.specs.Line.{words_of};
ghost use Rattle.fab_text.specs.Fault.{LineLeaves};
ghost use Rattle.line_table.specs.Form.{VertexAt, TurnBy, Word};
ghost use Rattle.line_table.specs.Matching.{is_among, onto};
ghost use Rattle.line_table.specs.Said.{host_said, vertex_said, number_said};
ghost use Rattle.map_canon.specs.Declaring.{declared, row_declared, placed, vertex_in};
ghost use Rattle.map_canon.specs.Declaring.{vertex_test, switch_test, is_number};
ghost use Rattle.map_canon.specs.Reading.{is_end};

use crate::growing::MapSoFar;
use fab_text::{
    FaultKind, LineFault, NumFault, Words, is_keyword, is_name, read_turn, read_u32, words,
};
use fabric_map::{MapCable, MapVertex};
use line_table::MapLineKind;
use port_graph::{Fabric, Vertex};

/// Whether a line is `endmap`.
pub(crate) fn is_end(line: &[u8]) -> bool
    ensures { result ≡ is_end (words_of line.now) }
{
    let mut args = words(line);
    match args.next_word() {
        Some(first) => is_keyword(first, b"endmap") && args.next_word().is_none(),
        None => false,
    }
}

/// Adds what a line declares. A line that has a fault takes no memory.
pub(crate) fn declare(map: &mut MapSoFar, f: &Fabric, line: &[u8]) -> Result<(), LineFault>
    ensures reading { LineLeaves (declared f.now map.old (words_of line.now)) map.new result }
    ensures memory { IsErrOf result LineFault.NoMemory → IsOk (declared f.now map.old (words_of line.now)) }
{
    let mut args = words(line);
    match args.next_word() {
        Some(first) => declare_as(map, f, first, args),
        None => Err(LineFault::Wrong(FaultKind::BadWord)),
    }
}

// Adds what a line declares that begins with this word.
fn declare_as(map: &mut MapSoFar, f: &Fabric, first: &[u8], args: Words) -> Result<(), LineFault>
    ensures reading { LineLeaves (declared f.now map.old (first.now ∷ words_of args.entry)) map.new result }
    ensures memory { IsErrOf result LineFault.NoMemory
        → IsOk (declared f.now map.old (first.now ∷ words_of args.entry)) }
{
    if is_keyword(first, b"host") {
        declare_host(map, f, args)
    } else if is_keyword(first, b"switch") {
        declare_switch(map, f, args)
    } else if is_keyword(first, b"cable") {
        declare_cable(map, f, args)
    } else {
        Err(LineFault::Wrong(FaultKind::BadWord))
    }
}

// `host NAME`
fn declare_host(map: &mut MapSoFar, f: &Fabric, mut args: Words) -> Result<(), LineFault>
    ensures reading { LineLeaves (row_declared f.now map.old MapLineKind.Host (words_of args.entry)) map.new result }
    ensures memory { IsErrOf result LineFault.NoMemory
        → IsOk (row_declared f.now map.old MapLineKind.Host (words_of args.entry)) }
{
    let (Some(name), None) = (args.next_word(), args.next_word()) else {
        return Err(LineFault::Wrong(FaultKind::BadWord));
    };
    add_host(map, f, name)
}

fn add_host(map: &mut MapSoFar, f: &Fabric, name: &[u8]) -> Result<(), LineFault>
    ensures reading { LineLeaves (row_declared f.now map.old MapLineKind.Host (name.now ∷ [])) map.new result }
    ensures memory { IsErrOf result LineFault.NoMemory
        → IsOk (row_declared f.now map.old MapLineKind.Host (name.now ∷ [])) }
{
    if !is_name(name) {
        return Err(LineFault::Wrong(FaultKind::BadWord));
    }
    match host_said(f, name) {
        Some(h) => map.add_host(h),
        None => Err(LineFault::Wrong(FaultKind::NoVertex)),
    }
}

// `switch #K core` or `switch #K outside`
fn declare_switch(map: &mut MapSoFar, f: &Fabric, mut args: Words) -> Result<(), LineFault>
    ensures reading { LineLeaves (row_declared f.now map.old MapLineKind.Switch (words_of args.entry)) map.new result }
    ensures memory { IsErrOf result LineFault.NoMemory
        → IsOk (row_declared f.now map.old MapLineKind.Switch (words_of args.entry)) }
{
    let (Some(number), Some(mark)) = (args.next_word(), args.next_word()) else {
        return Err(LineFault::Wrong(FaultKind::BadWord));
    };
    if args.next_word().is_some() {
        return Err(LineFault::Wrong(FaultKind::BadWord));
    }
    add_switch(map, f, number, mark)
}

fn add_switch(map: &mut MapSoFar, f: &Fabric, number: &[u8], mark: &[u8]) -> Result<(), LineFault>
    ensures reading { LineLeaves (row_declared f.now map.old MapLineKind.Switch (number.now ∷ mark.now ∷ []))
        map.new result }
    ensures memory { IsErrOf result LineFault.NoMemory
        → IsOk (row_declared f.now map.old MapLineKind.Switch (number.now ∷ mark.now ∷ [])) }
{
    if !is_vertex(number) || !is_mark(mark) {
        return Err(LineFault::Wrong(FaultKind::BadWord));
    }
    match vertex_said(f, number) {
        Some(MapVertex::Switch(s)) => add_numbered(map, s, mark),
        Some(MapVertex::Host(_)) => Err(LineFault::Wrong(FaultKind::BadWord)),
        None => Err(LineFault::Wrong(FaultKind::BadWord)),
    }
}

// Adds a switch with a mark, if its number is the next.
fn add_numbered(map: &mut MapSoFar, s: u32, mark: &[u8]) -> Result<(), LineFault>
    ensures reading { LineLeaves (placed map.old MapLineKind.Switch
        (Some (VertexAt (MapVertex.Switch s) ∷ Word mark.now ∷ []))) map.new result }
    ensures memory { IsErrOf result LineFault.NoMemory
        → IsOk (placed map.old MapLineKind.Switch (Some (VertexAt (MapVertex.Switch s) ∷ Word mark.now ∷ []))) }
{
    if s as usize == map.switches() {
        map.add_switch(is_keyword(mark, b"core"))
    } else {
        Err(LineFault::Wrong(FaultKind::BadWord))
    }
}

// `cable V P W Q`
fn declare_cable(map: &mut MapSoFar, f: &Fabric, mut args: Words) -> Result<(), LineFault>
    ensures reading { LineLeaves (row_declared f.now map.old MapLineKind.Cable (words_of args.entry)) map.new result }
    ensures memory { IsErrOf result LineFault.NoMemory
        → IsOk (row_declared f.now map.old MapLineKind.Cable (words_of args.entry)) }
{
    let (Some(v), Some(p)) = (args.next_word(), args.next_word()) else {
        return Err(LineFault::Wrong(FaultKind::BadWord));
    };
    let (Some(w), Some(q), None) = (args.next_word(), args.next_word(), args.next_word()) else {
        return Err(LineFault::Wrong(FaultKind::BadWord));
    };
    add_cable(map, f, v, p, w, q)
}

fn add_cable(
    map: &mut MapSoFar,
    f: &Fabric,
    v: &[u8],
    p: &[u8],
    w: &[u8],
    q: &[u8],
) -> Result<(), LineFault>
    ensures reading { LineLeaves (row_declared f.now map.old MapLineKind.Cable
        (v.now ∷ p.now ∷ w.now ∷ q.now ∷ [])) map.new result }
    ensures memory { IsErrOf result LineFault.NoMemory
        → IsOk (row_declared f.now map.old MapLineKind.Cable (v.now ∷ p.now ∷ w.now ∷ q.now ∷ [])) }
{
    if !is_vertex(v) {
        return Err(LineFault::Wrong(FaultKind::BadWord));
    }
    match read_turn(p) {
        Ok(p) => {
            if !is_vertex(w) {
                return Err(LineFault::Wrong(FaultKind::BadWord));
            }
            match read_turn(q) {
                Ok(q) => join(map, vertex_said(f, v), p, vertex_said(f, w), q),
                Err(fault) => Err(LineFault::Wrong(FaultKind::from(fault))),
            }
        }
        Err(fault) => Err(LineFault::Wrong(FaultKind::from(fault))),
    }
}

// Joins two ports, where both vertices were read and are there.
fn join(
    map: &mut MapSoFar,
    v: Option<MapVertex>,
    p: i8,
    w: Option<MapVertex>,
    q: i8,
) -> Result<(), LineFault>
    ensures reading { LineLeaves (placed map.old MapLineKind.Cable (onto (option_map VertexAt v)
        (onto (Some (TurnBy p)) (onto (option_map VertexAt w) (onto (Some (TurnBy q)) (Some [])))))) map.new result }
    ensures memory { IsErrOf result LineFault.NoMemory
        → IsOk (placed map.old MapLineKind.Cable (onto (option_map VertexAt v)
        (onto (Some (TurnBy p)) (onto (option_map VertexAt w) (onto (Some (TurnBy q)) (Some [])))))) }
{
    let (Some(v), Some(w)) = (v, w) else {
        return Err(LineFault::Wrong(FaultKind::NoVertex));
    };
    match (vertex_in(map, v), vertex_in(map, w)) {
        (Some(v), Some(w)) => map.add_cable(MapCable { v, p, w, q }),
        _ => Err(LineFault::Wrong(FaultKind::NoVertex)),
    }
}

// The vertex of the map that a line names.
fn vertex_in(map: &MapSoFar, v: MapVertex) -> Option<u32>
    ensures { result ≡ vertex_in map.now v }
{
    match v {
        MapVertex::Host(h) => map.vertex_of_host(h),
        MapVertex::Switch(s) => map.vertex_of_switch(s),
    }
}

// What a word says: `#K` a switch, another one a host of the fabric.
fn vertex_said(f: &Fabric, word: &[u8]) -> Option<MapVertex>
    ensures { result ≡ vertex_said f.now word.now }
{
    match word {
        [b'#', number @ ..] => switch_said(number),
        _ => match host_said(f, word) {
            Some(h) => Some(MapVertex::Host(h)),
            None => None,
        },
    }
}

// A switch by its number.
fn switch_said(number: &[u8]) -> Option<MapVertex>
    ensures { result ≡ option_map MapVertex.Switch (number_said 4294967295 number.now) }
{
    match read_u32(number) {
        Ok(s) => Some(MapVertex::Switch(s)),
        Err(_) => None,
    }
}

// The host of a name.
fn host_said(f: &Fabric, name: &[u8]) -> Option<u16>
    ensures { result ≡ host_said f.now name.now }
{
    match f.find(name) {
        Some(Vertex::Host(h)) => Some(h),
        _ => None,
    }
}

// Whether a word has the form of a vertex.
fn is_vertex(word: &[u8]) -> bool
    ensures { result ≡ vertex_test word.now }
{
    is_name(word) || is_switch(word)
}

// Whether a word is `#K`.
fn is_switch(word: &[u8]) -> bool
    ensures { result ≡ switch_test word.now }
{
    match word {
        [b'#', number @ ..] => is_number(read_u32(number)),
        _ => false,
    }
}

// Whether what was read is a number, of any size.
fn is_number(number: Result<u32, NumFault>) -> bool
    ensures { result ≡ is_number number }
{
    match number {
        Ok(_) => true,
        Err(NumFault::TooLarge) => true,
        Err(NumFault::NotNumber) => false,
    }
}

// Whether a word is the mark of a switch.
fn is_mark(word: &[u8]) -> bool
    ensures { result ≡ is_among (codes "core" ∷ codes "outside" ∷ []) word.now }
{
    is_keyword(word, b"core") || is_keyword(word, b"outside")
}
