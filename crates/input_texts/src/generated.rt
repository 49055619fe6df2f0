//! What the text of a generated run says.

ghost use Rattle.std.specs.Prelude.{◌≤◌, IfOk};
ghost use Rattle.std.specs.List.{AllByRecursion};
ghost use Rattle.fab_script.specs.Ranges.{IsCommandOf};
ghost use Rattle.fabric_gen.specs.Text.{gen_text as text_of};
ghost use Rattle.input_texts.specs.Reading.{IsAccepted};

use crate::reading::{Accepted, read_text};
use fab_text::TextFault;
use fabric_gen::gen_text;
use std::alloc::{AllocError, Global};

/// What the text of so many hosts and a seed says: it is accepted.
pub fn read_generated(alloc: Global, n: u8, seed: u32) -> Result<Accepted, AllocError>
    requires some { 2 ≤ n }
    requires few { n ≤ 24 }
    requires seed { seed ≤ 1000000 }
    ensures accepted { IfOk result (λ a. IsAccepted (text_of n seed) a) }
    ensures over { IfOk result (λ a. AllByRecursion (IsCommandOf a.network) a.commands) }
{
    let text = gen_text(alloc, n, seed)?;
    match read_text(alloc, &text) {
        Ok(accepted) => Ok(accepted),
        Err(TextFault::NoMemory) => Err(AllocError),
        Err(TextFault::At { .. }) => unreachable!(),
    }
}
