//! The fabric part of a text.

ghost use Rattle.std.specs.Prelude.{◌≡◌, ◌<◌, ◌≤◌, ◌+◌, ◌-◌, length, IfOk, IsErrOf};
ghost use Rattle.fab_text.specs.Fault.{TextGives};
ghost use Rattle.net_defs.specs.Network.{IsFabric};
ghost use Rattle.fabric_file.specs.Reading.{fabric_reading, sound_lines, AreNamed};

use crate::declaring::{declare, is_script};
use fab_text::{FaultKind, TextFault, line_count, lines};
use port_graph::Fabric;
use std::alloc::Global;

/// The fabric of a text, and where its fabric part ends.
#[derive(Drop)]
pub struct FabricText {
    /// The hosts, switches and cables that the lines declare.
    pub fabric: Fabric,
    /// The first byte after the line `script`.
    pub next: usize,
    /// The number of that line, from 1.
    pub line: u32,
}

/// Reads a text up to its line `script` into a fabric.
///
/// A text that isn't of the form is refused with the first fault: the first line that has one, and in it, in this
/// order, the first word, the number of words, each further word's form from left to right, and what refuses the
/// vertex or the cable.
pub fn read_fabric(alloc: Global, text: &[u8]) -> Result<FabricText, TextFault>
    requires { length text.now ≤ 4294967290 }
    // Exactly the fabric that the lines declare, or exactly the first fault.
    ensures reading { TextGives (fabric_reading text.now) result }
    // Memory may run out only where a line stands before the first fault: one that has a fault takes none.
    ensures memory { IsErrOf result TextFault.NoMemory → 0 < length (sound_lines text.now) }
    ensures fabric { IfOk result (λ t. IsFabric t.fabric) }
    ensures named { IfOk result (λ t. AreNamed t.fabric) }
    ensures inside { IfOk result (λ t. t.next ≤ length text.now) }
    ensures bounded { IfOk result (λ t. t.line + (length text.now - t.next) ≤ 4294967290) }
{
    let mut fabric = Fabric::new(alloc);
    let mut left = lines(text);
    'lines: while let Some((number, line)) = left.next_line() {
        if is_script(line) {
            return Ok(FabricText {
                fabric,
                next: text.len() - left.rest().len(),
                line: number,
            });
        }
        if let Err(fault) = declare(alloc, &mut fabric, line) {
            return Err(fault.at(number));
        }
    }
    Err(TextFault::At {
        line: line_count(text) + 1,
        kind: FaultKind::NoEnd,
    })
}
