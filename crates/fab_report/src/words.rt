//! The words of turns, vertices and bytes; and words that a number follows.

ghost use Rattle.std.specs.Prelude.{◌≡◌, ◌++◌, ◌∷◌, OnOk, decimal};
ghost use Rattle.line_writing.specs.Words.{word_text};
ghost use Rattle.line_table.specs.Texts.{hex_text, turn_text, vertex_text};
ghost use Rattle.fab_report.specs.There.{IsVertexOf};

use line_writing::{Word, append_bytes, append_marked};
use map_defs::MapVertex;
use port_graph::{Fabric, Vertex};
use std::alloc::AllocError;

/// A turn, or a port of a map: `0`, `+3`, `-3`.
pub(crate) fn turn_word(turn: i8) -> Word<'static>
    ensures { word_text result ≡ turn_text turn }
{
    let size = u64::from(turn.unsigned_abs());
    if turn > 0 {
        Word::Marked(b'+', size)
    } else if turn < 0 {
        Word::Marked(b'-', size)
    } else {
        Word::Text(b"0")
    }
}

/// A vertex of a map: a host by its name, a switch by its number.
pub(crate) fn vertex_word(f: &Fabric, v: MapVertex) -> Word<'_>
    requires { IsVertexOf f.now v }
    ensures { word_text result ≡ vertex_text f.now v }
{
    match v {
        MapVertex::Host(h) => Word::Text(f.name_of(Vertex::Host(h))),
        MapVertex::Switch(s) => Word::Marked(b'#', u64::from(s)),
    }
}

/// Bytes as two digits each, or `-` for none.
pub(crate) fn bytes_word(bytes: &[u8]) -> Word<'_>
    ensures { word_text result ≡ hex_text bytes.now }
{
    if bytes.is_empty() {
        Word::Text(b"-")
    } else {
        Word::Hex(bytes)
    }
}

/// Puts words after a text, and then a number. It stands in its callers, where the words are known: so they are
/// written without a loop.
#[inline(always)]
pub(crate) fn append_numbered(
    text: &mut Vec<u8>,
    words: &[u8],
    number: u64,
) -> Result<(), AllocError>
    ensures { OnOk result (text.new.items ≡ text.old.items ++ (words.now ++ 32 ∷ decimal number)) }
{
    append_bytes(text, words)?;
    append_marked(text, b' ', number)
}
