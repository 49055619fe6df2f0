//! The line of a text that isn't accepted.

ghost use Rattle.std.specs.Prelude.{◌≡◌, IfOk};
ghost use Rattle.input_texts.specs.Reading.{refusal_text};

use fab_report::{Line, print_line};
use fab_text::FaultKind;
use port_graph::Fabric;
use std::alloc::{AllocError, Global};

/// The line of a text that isn't accepted: it reports the first fault. It names no vertex, so it is printed with the
/// names of none.
pub fn refusal_line(alloc: Global, line: u32, kind: FaultKind) -> Result<Vec<u8>, AllocError>
    ensures { IfOk result (λ text. text.items ≡ refusal_text record { line = line; kind = kind }) }
{
    print_line(alloc, &Line::Refused { line, kind }, &Fabric::new(alloc))
}
