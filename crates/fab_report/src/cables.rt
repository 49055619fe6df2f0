//! The lines of cables that are pulled and plugged, and of routes that they break.

ghost use Rattle.std.specs.Prelude.{◌≡◌, ◌++◌, OnOk, IsTrue};
ghost use Rattle.net_defs.specs.Network.{has_vertex};
ghost use Rattle.fab_text.specs.Written.{spaced};
ghost use Rattle.run_defs.specs.LineText.{words_in};
ghost use Rattle.run_defs.specs.declared.line.Line.TheVariants.{Pull, Plug, Broken};
ghost use Rattle.fab_report.specs.Kinds.{IsCableLine};
ghost use Rattle.fab_report.specs.There.{AreThere, IsHost};

use line_writing::Word::{Number, Text};
use line_writing::append_words;
use port_graph::{End, Fabric, Vertex};
use run_defs::{Line, PlugWords};
use std::alloc::AllocError;

/// The words of a line of cables, by its kind.
pub(crate) fn append_cable_line(text: &mut Vec<u8>, l: &Line, f: &Fabric) -> Result<(), AllocError>
    requires cable { IsCableLine l.now }
    requires there { AreThere f.now l.now }
    ensures { OnOk result (text.new.items ≡ text.old.items ++ spaced (words_in f.now l.now)) }
{
    match l {
        Line::Pull { at, done } => pull_line(text, f, *at, *done),
        Line::Plug { a, b, words } => plug_line(text, f, *a, *b, *words),
        Line::Revoked(count) => append_words(text, &[Text(b"revoked"), Number(u64::from(*count))]),
        Line::Broken { from, to } => broken_line(text, f, *from, *to),
        Line::EndBroken => append_words(text, &[Text(b"endbroken")]),
        Line::NoBroken => {
            append_words(
                text,
                &[Text(b"broken"), Text(b"refused"), Text(b"noroutes")],
            )
        }
        _ => unreachable!(),
    }
}

// `pull V P done`, `pull V P refused nocable`
fn pull_line(text: &mut Vec<u8>, f: &Fabric, at: End, done: bool) -> Result<(), AllocError>
    requires { IsTrue (has_vertex f.now at.v) }
    ensures { OnOk result (text.new.items ≡ text.old.items ++ spaced (words_in f.now (Pull at done))) }
{
    let pull = Text(b"pull");
    let name = Text(f.name_of(at.v));
    let port = Number(u64::from(at.p));
    if done {
        append_words(text, &[pull, name, port, Text(b"done")])
    } else {
        append_words(
            text,
            &[pull, name, port, Text(b"refused"), Text(b"nocable")],
        )
    }
}

// `plug V P W Q done`, `plug V P W Q refused portused`, `plug V P W Q refused full`
fn plug_line(
    text: &mut Vec<u8>,
    f: &Fabric,
    a: End,
    b: End,
    words: PlugWords,
) -> Result<(), AllocError>
    requires a { IsTrue (has_vertex f.now a.v) }
    requires b { IsTrue (has_vertex f.now b.v) }
    ensures { OnOk result (text.new.items ≡ text.old.items ++ spaced (words_in f.now (Plug a b words))) }
{
    let plug = Text(b"plug");
    let (v, p) = (Text(f.name_of(a.v)), Number(u64::from(a.p)));
    let (w, q) = (Text(f.name_of(b.v)), Number(u64::from(b.p)));
    let no = Text(b"refused");
    match words {
        PlugWords::Done => append_words(text, &[plug, v, p, w, q, Text(b"done")]),
        PlugWords::PortUsed => append_words(text, &[plug, v, p, w, q, no, Text(b"portused")]),
        PlugWords::Full => append_words(text, &[plug, v, p, w, q, no, Text(b"full")]),
    }
}

// `broken A B`
fn broken_line(text: &mut Vec<u8>, f: &Fabric, from: u16, to: u16) -> Result<(), AllocError>
    requires from { IsHost f.now from }
    requires to { IsHost f.now to }
    ensures { OnOk result (text.new.items ≡ text.old.items ++ spaced (words_in f.now (Broken from to))) }
{
    let sender = Text(f.name_of(Vertex::Host(from)));
    let receiver = Text(f.name_of(Vertex::Host(to)));
    append_words(text, &[Text(b"broken"), sender, receiver])
}
