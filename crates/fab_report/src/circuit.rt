//! The lines of a map of circuit links.

ghost use Rattle.std.specs.Prelude.{◌≡◌, ◌++◌, OnOk};
ghost use Rattle.fab_text.specs.Written.{spaced};
ghost use Rattle.run_defs.specs.LineText.{words_in};
ghost use Rattle.run_defs.specs.declared.line.Line.TheVariants.{Circuit, CircuitNodes};
ghost use Rattle.fab_report.specs.There.{IsHost};

use line_writing::Word::{Number, Text};
use line_writing::append_words;
use port_graph::{Fabric, Vertex};
use std::alloc::AllocError;

/// `circuit H depth D asks A`
pub(crate) fn circuit_line(
    text: &mut Vec<u8>,
    f: &Fabric,
    host: u16,
    depth: u8,
    asks: u64,
) -> Result<(), AllocError>
    requires { IsHost f.now host }
    ensures { OnOk result (text.new.items ≡ text.old.items ++ spaced (words_in f.now (Circuit host depth asks))) }
{
    let name = Text(f.name_of(Vertex::Host(host)));
    let depth = Number(u64::from(depth));
    append_words(
        text,
        &[
            Text(b"circuit"),
            name,
            Text(b"depth"),
            depth,
            Text(b"asks"),
            Number(asks),
        ],
    )
}

/// `circuit H nodes asks A`
pub(crate) fn circuit_nodes_line(
    text: &mut Vec<u8>,
    f: &Fabric,
    host: u16,
    asks: u64,
) -> Result<(), AllocError>
    requires { IsHost f.now host }
    ensures { OnOk result (text.new.items ≡ text.old.items ++ spaced (words_in f.now (CircuitNodes host asks))) }
{
    let name = Text(f.name_of(Vertex::Host(host)));
    append_words(
        text,
        &[
            Text(b"circuit"),
            name,
            Text(b"nodes"),
            Text(b"asks"),
            Number(asks),
        ],
    )
}
