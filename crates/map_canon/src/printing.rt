//! The lines of a map.

ghost use Rattle.std.specs.Prelude.{◌≡◌, ◌++◌, map, flat_map, IfOk, OnOk};
ghost use Rattle.line_writing.specs.Words.{word_text};
ghost use Rattle.net_defs.specs.Turn.{IsTurn};
ghost use Rattle.line_table.specs.Texts.{turn_text, vertex_text};
ghost use Rattle.run_defs.specs.LineText.{map_text, map_line_text, vertex_lines, vertex_line, vertex_numbered};
ghost use Rattle.run_defs.specs.LineText.{cable_line, core_word};
ghost use Rattle.map_canon.specs.Printing.{AreOfFabric, IsOfFabric, IsReadBack};

use fabric_map::{FabricMap, MapCable, MapVertex};
use line_writing::Word::{Marked, Text};
use line_writing::{Word, append_line};
use port_graph::{Fabric, Vertex};
use std::alloc::{AllocError, Global};

/// The lines of a map, its hosts by their names in a fabric: the vertices in their order, the cables in theirs, and
/// `endmap`.
///
/// They are read back as the same map, where the fabric's names have the form of the text, as those of a fabric that
/// was read have.
pub fn print_map(alloc: Global, m: &FabricMap, f: &Fabric) -> Result<Vec<u8>, AllocError>
    requires { AreOfFabric f.now m.now }
    ensures text { IfOk result (λ text. text.items ≡ map_text f.now m.now) }
    ensures read_back { IfOk result (λ text. IsReadBack f.now m.now text.items) }
{
    let _ = m.vertices();
    let mut text = Vec::new(alloc);
    print_vertices(m, f, &mut text)?;
    print_cables(m, f, &mut text)?;
    append_line(&mut text, &[Text(b"endmap")])?;
    Ok(text)
}

// A line for each vertex.
fn print_vertices(m: &FabricMap, f: &Fabric, text: &mut Vec<u8>) -> Result<(), AllocError>
    requires { AreOfFabric f.now m.now }
    ensures { OnOk result (text.new.items ≡ text.old.items
        ++ flat_map (map_line_text f.now) (vertex_lines m.now.vertices m.now.core)) }
{
    let core = m.core();
    for (v, vertex) in m.vertices().iter().enumerate() {
        vertex_line(text, f, *vertex, core[v])?;
    }
    Ok(())
}

// A line for each cable.
fn print_cables(m: &FabricMap, f: &Fabric, text: &mut Vec<u8>) -> Result<(), AllocError>
    requires { AreOfFabric f.now m.now }
    ensures { OnOk result (text.new.items ≡ text.old.items
        ++ flat_map (map_line_text f.now) (map (cable_line m.now) m.now.cables)) }
{
    for c in m.cables() {
        cable_line(text, m, f, *c)?;
    }
    Ok(())
}

// `host NAME`, or `switch #K` with its mark
fn vertex_line(text: &mut Vec<u8>, f: &Fabric, v: MapVertex, core: bool) -> Result<(), AllocError>
    requires { IsOfFabric f.now v }
    ensures { OnOk result (text.new.items ≡ text.old.items ++ map_line_text f.now (vertex_line v core)) }
{
    match v {
        MapVertex::Host(h) => {
            append_line(text, &[Text(b"host"), Text(f.name_of(Vertex::Host(h)))])
        }
        MapVertex::Switch(s) => {
            let number = Marked(b'#', u64::from(s));
            append_line(text, &[Text(b"switch"), number, Text(core_word(core))])
        }
    }
}

// `core` or `outside`
fn core_word(core: bool) -> &'static [u8]
    ensures { result.now ≡ core_word core }
{
    if core { b"core" } else { b"outside" }
}

// `cable V P W Q`
fn cable_line(text: &mut Vec<u8>, m: &FabricMap, f: &Fabric, c: MapCable) -> Result<(), AllocError>
    requires hosts { AreOfFabric f.now m.now }
    requires port_p { IsTurn c.p }
    requires port_q { IsTurn c.q }
    ensures { OnOk result (text.new.items ≡ text.old.items ++ map_line_text f.now (cable_line m.now c)) }
{
    let v = vertex_word(m, f, c.v);
    let p = port_word(c.p);
    let w = vertex_word(m, f, c.w);
    let q = port_word(c.q);
    append_line(text, &[Text(b"cable"), v, p, w, q])
}

// The name of a vertex by its number.
fn vertex_word<'a>(m: &FabricMap, f: &'a Fabric, v: u32) -> Word<'a>
    requires { AreOfFabric f.now m.now }
    ensures { word_text result ≡ vertex_text f.now (vertex_numbered m.now v) }
{
    match m.vertices().get(v as usize) {
        Some(vertex) => name_word(f, *vertex),
        None => Marked(b'#', 0),
    }
}

// A host's name, or `#K`.
fn name_word(f: &Fabric, v: MapVertex) -> Word<'_>
    requires { IsOfFabric f.now v }
    ensures { word_text result ≡ vertex_text f.now v }
{
    match v {
        MapVertex::Host(h) => Text(f.name_of(Vertex::Host(h))),
        MapVertex::Switch(s) => Marked(b'#', u64::from(s)),
    }
}

// A port: `0`, `+3` or `-3`.
fn port_word(p: i8) -> Word<'static>
    ensures { word_text result ≡ turn_text p }
{
    let size = u64::from(p.unsigned_abs());
    if p > 0 {
        Marked(b'+', size)
    } else if p < 0 {
        Marked(b'-', size)
    } else {
        Text(b"0")
    }
}
