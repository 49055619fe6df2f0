//! The lines that map the fabric and install its routes.

ghost use Rattle.std.specs.Prelude.{◌≡◌, ◌++◌, ◌∷◌, [], OnOk, codes, decimal};
ghost use Rattle.fab_text.specs.Written.{line_text};
ghost use Rattle.fabric_gen.specs.Text.{host_name, lines_text, mapping_lines};

use crate::names::host;
use line_writing::{Word, append_line};
use std::alloc::AllocError;

/// Host 0 maps the fabric of `n` hosts, and distributes its routes.
pub(crate) fn append_mapping(text: &mut Vec<u8>, n: u8) -> Result<(), AllocError>
    ensures { OnOk result (text.new.items ≡ text.old.items ++ lines_text (mapping_lines n)) }
{
    append_map(text, u64::from(n) + 3)?;
    append_line(text, &[Word::Text(b"routes")])?;
    append_line(text, &[Word::Text(b"install"), Word::Text(b"1")])
}

// `map h0 DEPTH 1`
fn append_map(text: &mut Vec<u8>, depth: u64) -> Result<(), AllocError>
    ensures { OnOk result (text.new.items ≡ text.old.items
        ++ line_text (codes "map" ∷ host_name 0 ∷ decimal depth ∷ codes "1" ∷ [])) }
{
    append_line(
        text,
        &[
            Word::Text(b"map"),
            host(0),
            Word::Number(depth),
            Word::Text(b"1"),
        ],
    )
}
