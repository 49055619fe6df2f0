//! A line by its first word, where it names no call.

ghost use Rattle.std.specs.Prelude.{◌≡◌, ◌∷◌, IfOk};
ghost use Rattle.fab_text.specs.Line.{words_of};
ghost use Rattle.report_lines.specs.Lines.{first_said};
ghost use Rattle.report_lines.specs.Meaning.{map_kinds};

use crate::forms::by_form;
use crate::line::ReportLine;
use crate::maps::{circuit, installed, map, rank, routes, table};
use crate::route_line::read_route;
use fab_text::Words;
use port_graph::Fabric;
use std::alloc::{AllocError, Global};

/// What a line says that begins with this word, where the word names no call. Memory is taken for the turns of a route.
pub(crate) fn read_other(
    alloc: Global,
    fabric: &Fabric,
    first: &[u8],
    args: Words,
) -> Result<Option<ReportLine>, AllocError>
    ensures { IfOk result (λ r. r ≡ first_said fabric.now (map_kinds first.now) (first.now ∷ words_of args.entry)) }
{
    if first == b"route".as_slice() {
        read_route(alloc, fabric, args)
    } else if first == b"rank".as_slice() {
        Ok(rank(fabric, args))
    } else if first == b"table".as_slice() {
        Ok(table(fabric, args))
    } else if first == b"installed".as_slice() {
        Ok(installed(fabric, args))
    } else if first == b"map".as_slice() {
        Ok(map(fabric, args))
    } else if first == b"circuit".as_slice() {
        Ok(circuit(fabric, args))
    } else if first == b"routes".as_slice() {
        Ok(routes(fabric, args))
    } else {
        Ok(by_form(fabric, first, args))
    }
}
