//! The whole text.

ghost use Rattle.std.specs.Prelude.{◌≡◌, ◌≤◌, length, IfOk};
ghost use Rattle.fabric_gen.specs.Text.{gen_text as text_of};

use crate::clients::append_clients;
use crate::closing::append_closing;
use crate::fabric::append_fabric;
use crate::mapping::append_mapping;
use std::alloc::{AllocError, Global};

/// The text of a run of `n` hosts, each of which sends four messages, whose peers, lengths and bytes come from the
/// seed.
///
/// It has the fabric, the line `script` and the script to its line `end`.
pub fn gen_text(alloc: Global, n: u8, seed: u32) -> Result<Vec<u8>, AllocError>
    requires some { 2 ≤ n }
    requires few { n ≤ 24 }
    requires seed { seed ≤ 1000000 }
    ensures text { IfOk result (λ text. text.items ≡ text_of n seed) }
    ensures short { IfOk result (λ text. length text.items ≤ 65536) }
{
    let mut text = Vec::new(alloc);
    append_fabric(&mut text, n)?;
    append_mapping(&mut text, n)?;
    append_clients(&mut text, n, seed)?;
    append_closing(&mut text, n)?;
    Ok(text)
}
