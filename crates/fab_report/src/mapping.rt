//! The lines of maps and ranks, and of how many routes there are.

ghost use Rattle.std.specs.Prelude.{◌≡◌, ◌++◌, ◌∷◌, [], OnOk, codes, decimal};
ghost use Rattle.fab_text.specs.Written.{spaced};
ghost use Rattle.run_defs.specs.LineText.{words_in};
ghost use Rattle.run_defs.specs.declared.line.Line.TheVariants.{Map, MapBusy, Rank};
ghost use Rattle.fab_report.specs.Kinds.{IsMapLine};
ghost use Rattle.fab_report.specs.There.{AreThere, IsHost, IsVertexOf};
ghost use Rattle.fab_report.specs.Words.{behind, known_words};

use crate::circuit::{circuit_line, circuit_nodes_line};
use crate::route::route_line;
use crate::words::{turn_word, vertex_word};
use line_writing::Word::{Number, Text};
use line_writing::{append_behind, append_words};
use map_defs::MapVertex;
use port_graph::{Fabric, Vertex};
use run_defs::{Line, MapWords};
use std::alloc::AllocError;

/// The words of a line of a map, of routes or of ranks, by its kind.
pub(crate) fn append_map_line(text: &mut Vec<u8>, l: &Line, f: &Fabric) -> Result<(), AllocError>
    requires map { IsMapLine l.now }
    requires there { AreThere f.now l.now }
    ensures { OnOk result (text.new.items ≡ text.old.items ++ spaced (words_in f.now l.now)) }
{
    match l {
        Line::Map {
            host,
            words,
            asks,
            packets,
        } => map_line(text, f, *host, *words, *asks, *packets),
        Line::MapBusy(host) => busy_line(text, f, *host),
        Line::Circuit { host, depth, asks } => circuit_line(text, f, *host, *depth, *asks),
        Line::CircuitNodes { host, asks } => circuit_nodes_line(text, f, *host, *asks),
        Line::Routes(count) => routes_line(text, *count),
        Line::Route { from, to, walk } => route_line(text, f, *from, *to, walk),
        Line::Rank { v, p, rank } => rank_line(text, f, *v, *p, *rank),
        Line::EndRoutes => append_words(text, &[Text(b"endroutes")]),
        Line::NoMap => append_words(text, &[Text(b"routes"), Text(b"refused"), Text(b"nomap")]),
        _ => unreachable!(),
    }
}

// `map H WORDS asks A packets N`
fn map_line(
    text: &mut Vec<u8>,
    f: &Fabric,
    host: u16,
    words: MapWords,
    asks: u64,
    packets: u64,
) -> Result<(), AllocError>
    requires { IsHost f.now host }
    ensures { OnOk result (text.new.items ≡ text.old.items ++ spaced (words_in f.now (Map host words asks packets))) }
{
    let name = Text(f.name_of(Vertex::Host(host)));
    append_words(text, &[Text(b"map"), name])?;
    append_map_words(text, words, asks, packets)
}

/// How far a map is known to be right, its asks and its packets, after other words.
pub(crate) fn append_map_words(
    text: &mut Vec<u8>,
    words: MapWords,
    asks: u64,
    packets: u64,
) -> Result<(), AllocError>
    ensures { OnOk result (text.new.items ≡ text.old.items
        ++ behind (known_words words ++ codes "asks" ∷ decimal asks ∷ codes "packets" ∷ decimal packets ∷ [])) }
{
    append_known(text, words)?;
    append_behind(
        text,
        &[
            Text(b"asks"),
            Number(asks),
            Text(b"packets"),
            Number(packets),
        ],
    )
}

// How far a map is known to be right, after other words.
fn append_known(text: &mut Vec<u8>, words: MapWords) -> Result<(), AllocError>
    ensures { OnOk result (text.new.items ≡ text.old.items ++ behind (known_words words)) }
{
    match words {
        MapWords::Complete => append_behind(text, &[Text(b"complete")]),
        MapWords::Doubtful(asks) => append_behind(text, &[Text(b"doubtful"), Number(asks)]),
        MapWords::IncompleteDepth => append_behind(text, &[Text(b"incomplete"), Text(b"depth")]),
        MapWords::IncompleteNodes => append_behind(text, &[Text(b"incomplete"), Text(b"nodes")]),
    }
}

// `map H refused busy`
fn busy_line(text: &mut Vec<u8>, f: &Fabric, host: u16) -> Result<(), AllocError>
    requires { IsHost f.now host }
    ensures { OnOk result (text.new.items ≡ text.old.items ++ spaced (words_in f.now (MapBusy host))) }
{
    let name = Text(f.name_of(Vertex::Host(host)));
    append_words(text, &[Text(b"map"), name, Text(b"refused"), Text(b"busy")])
}

// `routes N`
fn routes_line(text: &mut Vec<u8>, count: u32) -> Result<(), AllocError>
    ensures { OnOk result (text.new.items ≡ text.old.items ++ spaced (codes "routes" ∷ decimal count ∷ [])) }
{
    append_words(text, &[Text(b"routes"), Number(u64::from(count))])
}

// `rank V P R`
fn rank_line(
    text: &mut Vec<u8>,
    f: &Fabric,
    v: MapVertex,
    p: i8,
    rank: u64,
) -> Result<(), AllocError>
    requires { IsVertexOf f.now v }
    ensures { OnOk result (text.new.items ≡ text.old.items ++ spaced (words_in f.now (Rank v p rank))) }
{
    let vertex = vertex_word(f, v);
    let port = turn_word(p);
    append_words(text, &[Text(b"rank"), vertex, port, Number(rank)])
}
