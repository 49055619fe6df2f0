//! What a text says.

ghost use Rattle.std.specs.Prelude.{◌≤◌, ◌<◌, ◌+◌, ◌-◌, drop, length, IfOk, IsErrOf};
ghost use Rattle.std.specs.List.{AllByRecursion};
ghost use Rattle.fab_text.specs.Fault.{TextGives};
ghost use Rattle.fab_script.specs.Lists.{sound_lines as sound_of_script};
ghost use Rattle.fab_script.specs.Ranges.{IsCommandOf};
ghost use Rattle.input_texts.specs.Reading.{input_limit, reading, reading_from, sound_lines};

use fab_script::{Script, read_script};
use fab_text::TextFault;
use fabric_file::{FabricText, read_fabric};
use port_graph::Fabric;
use std::alloc::Global;
use std::marker::Model;

/// What an accepted text says: a fabric, and a script over it.
#[derive(Drop)]
pub struct Accepted {
    /// The fabric of its lines up to `script`.
    pub fabric: Fabric,
    /// The commands of the lines after that.
    pub script: Script,
}

impl Model for Accepted {
    ghost use Rattle.input_texts.specs.Reading.{AcceptedText};

    ghost Value = { AcceptedText };

    ghost view = { λ a. record { network = a.fabric; commands = a.script } };
}

/// What a text says, or its first fault.
pub fn read_text(alloc: Global, text: &[u8]) -> Result<Accepted, TextFault>
    requires { length text.now ≤ input_limit }
    ensures reading { TextGives (reading text.now) result }
    // Memory may run out only where a line stands before the first fault: a text whose first line has one is refused.
    ensures memory { IsErrOf result TextFault.NoMemory → 0 < length (sound_lines text.now) }
    ensures over { IfOk result (λ a. AllByRecursion (IsCommandOf a.network) a.commands) }
{
    match read_fabric(alloc, text) {
        Ok(part) => read_rest(alloc, text, part),
        Err(fault) => Err(fault),
    }
}

// What a text says whose fabric was read.
fn read_rest(alloc: Global, text: &[u8], part: FabricText) -> Result<Accepted, TextFault>
    requires inside { part.next ≤ length text.now }
    requires bounded { part.line + (length text.now - part.next) ≤ 4294967290 }
    ensures reading { TextGives (reading_from text.now part) result }
    ensures memory { IsErrOf result TextFault.NoMemory
        → 0 < length (sound_of_script part.fabric part.line (drop part.next text.now)) }
    ensures over { IfOk result (λ a. AllByRecursion (IsCommandOf a.network) a.commands) }
{
    let FabricText { fabric, next, line } = part;
    let (_, rest) = text.split_at(next);
    match read_script(alloc, rest, line, &fabric) {
        Ok(script) => Ok(Accepted { fabric, script }),
        Err(fault) => Err(fault),
    }
}
