//! A text of a map, and the lines of one that other lines follow.

ghost use Rattle.std.specs.Prelude.{◌≡◌, ◌≢◌, ◌<◌, ◌≤◌, length, Err, IfOk, IsErrOf};
ghost use Rattle.fab_text.specs.Line.{lines_left};
ghost use Rattle.fab_text.specs.Fault.{TextGives};
ghost use Rattle.fabric_map.specs.Growing.{IsFabricMap, empty_map};
ghost use Rattle.map_canon.specs.Printing.{AreOfFabric};
ghost use Rattle.map_canon.specs.Reading.{map_reading, map_part, PartGives, sound_lines, sound_from, ended};

use crate::declaring::{declare, is_end};
use crate::growing::MapSoFar;
use fab_text::{FaultKind, Lines, TextFault, line_count, lines};
use fabric_map::FabricMap;
use port_graph::Fabric;
use std::alloc::Global;

/// Reads the lines of a map, from its first vertex to `endmap`, its hosts by their names in a fabric.
///
/// A text that isn't of the form is refused with the first fault: the first line that has one, and in it, in this
/// order, the first word, the number of words, each further word's form from left to right, and what refuses the
/// vertex or the cable: `NoVertex` for a name that is no host of the fabric or a vertex without a line before,
/// `NameTaken` for a host that stands there twice, `BadWord` for a switch whose number isn't the next, and for a
/// cable `PortRange` before `PortUsed`. Without `endmap` it is `NoEnd` in the line after the last; a line after
/// `endmap` is `AfterEnd`. The order of the cables isn't tested.
pub fn read_map(alloc: Global, text: &[u8], f: &Fabric) -> Result<FabricMap, TextFault>
    requires { length text.now ≤ 4294967290 }
    // Exactly the map that the lines declare, or exactly the first fault.
    ensures reading { TextGives (map_reading f.now text.now) result }
    // Memory may run out only where a line stands before the first fault: one that has a fault takes none.
    ensures memory { IsErrOf result TextFault.NoMemory → 0 < length (sound_lines f.now text.now) }
    ensures is_map { IfOk result (λ m. IsFabricMap m) }
    ensures of_fabric { IfOk result (λ m. AreOfFabric f.now m) }
{
    let mut left = lines(text);
    match read_map_part(alloc, &mut left, line_count(text) + 1, f) {
        Ok(map) => ended(map, left),
        Err(fault) => Err(fault),
    }
}

/// Reads the lines of a map that other lines may follow: up to `endmap`, after which `left` stands then. The faults are
/// those of `read_map`, but that no line after `endmap` is one, and that without `endmap` the line `past` is named.
pub fn read_map_part(
    alloc: Global,
    left: &mut Lines,
    past: u32,
    f: &Fabric,
) -> Result<FabricMap, TextFault>
    // Exactly the map that the lines declare, with the lines after it, or exactly the first fault.
    ensures reading { PartGives (map_part past f.now (lines_left left.old)) (lines_left left.new) result }
    // Memory may run out only where a line stands before the first fault.
    ensures memory { IsErrOf result TextFault.NoMemory
        → 0 < length (sound_from f.now empty_map (lines_left left.old)) }
    ensures is_map { IfOk result (λ m. IsFabricMap m) }
    ensures of_fabric { IfOk result (λ m. AreOfFabric f.now m) }
{
    let mut map = MapSoFar::new(alloc);
    'lines: while let Some((number, line)) = left.next_line() {
        if is_end(line) {
            let map = map.into_map();
            let _ = map.vertices();
            return Ok(map);
        }
        if let Err(fault) = declare(&mut map, f, line) {
            return Err(fault.at(number));
        }
    }
    Err(TextFault::At {
        line: past,
        kind: FaultKind::NoEnd,
    })
}

// A map whose lines ended.
fn ended(map: FabricMap, mut left: Lines) -> Result<FabricMap, TextFault>
    ensures ended { TextGives (ended map (lines_left left.entry)) result }
    ensures known { result ≢ Err TextFault.NoMemory }
    ensures is_map { IfOk result (λ m. IsFabricMap m) }
{
    let _ = map.vertices();
    match left.next_line() {
        None => Ok(map),
        Some((line, _)) => Err(TextFault::At {
            line,
            kind: FaultKind::AfterEnd,
        }),
    }
}
