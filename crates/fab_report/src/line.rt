//! A line of a report, by its kind.

ghost use Rattle.std.specs.Prelude.{◌≡◌, ◌++◌, IfOk, OnOk};
ghost use Rattle.net_defs.specs.Network.{empty_network};
ghost use Rattle.net_defs.specs.Route.{IsPlaceOf};
ghost use Rattle.fab_text.specs.Written.{spaced};
ghost use Rattle.run_defs.specs.LineRows.{install_cause};
ghost use Rattle.run_defs.specs.LineText.{line_text, words_in};
ghost use Rattle.run_defs.specs.Run.{route_line};
ghost use Rattle.run_defs.specs.declared.line.Line.TheVariants.{Refused, Walk, Installed, Table, InstallRefused};
ghost use Rattle.run_defs.specs.declared.line.Line.TheVariants.{PlanAt, Settle, Finish};
ghost use Rattle.fab_report.specs.Kinds.{IsPortLine};
ghost use Rattle.fab_report.specs.There.{AreThere, IsHost};

use crate::cables::append_cable_line;
use crate::client::client_line;
use crate::duo::duo_line;
use crate::generated::append_generated_line;
use crate::mapping::append_map_line;
use crate::places::tokens_line;
use crate::route::route_line;
use crate::step::step_line;
use crate::words::append_numbered;
use fab_text::FaultKind;
use itoa::Buffer;
use line_writing::Word::{Number, Text};
use line_writing::{append_bytes, append_words};
use net_defs::Route;
use port_graph::{Fabric, Place, Vertex};
use run_defs::{InstallCause, Line};
use std::alloc::{AllocError, Global};

// The bytes that are taken for a line at once. Most lines are shorter, so that their text never moves.
const LINE_ROOM: usize = 48;

/// The text of a line with its end. The hosts, switches and ends that it names are of the fabric, whose names it is
/// printed with.
pub fn print_line(alloc: Global, l: &Line, f: &Fabric) -> Result<Vec<u8>, AllocError>
    requires there { AreThere f.now l.now }
    ensures text { IfOk result (λ text. text.items ≡ line_text f.now l.now) }
{
    let mut text = Vec::with_capacity(alloc, LINE_ROOM)?;
    print_line_onto(&mut text, l, f)?;
    Ok(text)
}

/// The same after a text. Where memory runs out, a part of the line may stand there.
pub fn print_line_onto(text: &mut Vec<u8>, l: &Line, f: &Fabric) -> Result<(), AllocError>
    requires there { AreThere f.now l.now }
    ensures text { OnOk result (text.new.items ≡ text.old.items ++ line_text f.now l.now) }
{
    append_line(text, l, f)?;
    text.push(b'\n')?;
    Ok(())
}

/// The same of a line that is done with: callers that make a line need not end it.
pub(crate) fn print_made_onto(text: &mut Vec<u8>, l: Line, f: &Fabric) -> Result<(), AllocError>
    requires there { AreThere f.now l }
    ensures text { OnOk result (text.new.items ≡ text.old.items ++ line_text f.now l) }
{
    print_line_onto(text, &l, f)
}

/// The line of a route after a text, without a copy of its walk. Where memory runs out, a part of the line may
/// stand there.
pub fn print_route_onto(text: &mut Vec<u8>, r: &Route, f: &Fabric) -> Result<(), AllocError>
    requires there { AreThere f.now (route_line r.now) }
    ensures text { OnOk result (text.new.items ≡ text.old.items ++ line_text f.now (route_line r.now)) }
{
    route_line(text, f, r.from, r.to, &r.walk)?;
    text.push(b'\n')?;
    Ok(())
}

// The words of a line, by its kind.
fn append_line(text: &mut Vec<u8>, l: &Line, f: &Fabric) -> Result<(), AllocError>
    requires there { AreThere f.now l.now }
    ensures { OnOk result (text.new.items ≡ text.old.items ++ spaced (words_in f.now l.now)) }
{
    match l {
        Line::Refused { line, kind } => refused_line(text, *line, *kind),
        Line::Walk(place) => walk_line(text, f, *place),
        Line::Installed { acked, of } => installed_line(text, *acked, *of),
        Line::Table { host, active } => table_line(text, f, *host, *active),
        Line::InstallRefused(cause) => install_refused_line(text, *cause),
        Line::PlanAt(number) => plan_line(text, *number),
        Line::Step(words) => step_line(text, f, *words),
        Line::Finish { injected, dropped } => end_line(text, *injected, *dropped),
        Line::Settle {
            rounds,
            resets,
            unacked,
        } => settle_line(text, *rounds, *resets, *unacked),
        Line::Client { .. } | Line::Tokens { .. } => append_port_line(text, l, f),
        Line::Duo(effect) => duo_line(text, effect),
        Line::GenHead { .. } | Line::GenMap { .. } | Line::GenCount { .. } => {
            append_generated_line(text, l)
        }
        Line::Pull { .. }
        | Line::Plug { .. }
        | Line::Revoked(_)
        | Line::Broken { .. }
        | Line::EndBroken
        | Line::NoBroken => append_cable_line(text, l, f),
        _ => append_map_line(text, l, f),
    }
}

// The words of a line of a port: what a client's call was answered, or where the tokens are.
fn append_port_line(text: &mut Vec<u8>, l: &Line, f: &Fabric) -> Result<(), AllocError>
    requires port { IsPortLine l.now }
    requires there { AreThere f.now l.now }
    ensures { OnOk result (text.new.items ≡ text.old.items ++ spaced (words_in f.now l.now)) }
{
    match l {
        Line::Client {
            call,
            host,
            port,
            said,
        } => client_line(text, f, *call, *host, *port, said),
        Line::Tokens {
            host,
            port,
            sends,
            recvs,
        } => tokens_line(text, f, *host, *port, sends.list(), recvs.list()),
        _ => unreachable!(),
    }
}

// `refused LINE KIND`
fn refused_line(text: &mut Vec<u8>, line: u32, kind: FaultKind) -> Result<(), AllocError>
    ensures { OnOk result (text.new.items ≡ text.old.items ++ spaced (words_in empty_network (Refused line kind))) }
{
    let line = Number(u64::from(line));
    append_words(text, &[Text(b"refused"), line, Text(kind.word())])
}

// `walk host NAME`, `walk switch NAME port P`, `walk nothing`
fn walk_line(text: &mut Vec<u8>, f: &Fabric, place: Place) -> Result<(), AllocError>
    requires { IsPlaceOf f.now place }
    ensures { OnOk result (text.new.items ≡ text.old.items ++ spaced (words_in f.now (Walk place))) }
{
    let walk = Text(b"walk");
    match place {
        Place::Host(h) => {
            let name = Text(f.name_of(Vertex::Host(h)));
            append_words(text, &[walk, Text(b"host"), name])
        }
        Place::Switch(s, p) => {
            let name = Text(f.name_of(Vertex::Switch(s)));
            let port = Number(u64::from(p));
            append_words(text, &[walk, Text(b"switch"), name, Text(b"port"), port])
        }
        Place::Nothing => append_words(text, &[walk, Text(b"nothing")]),
    }
}

// `installed K of N`
fn installed_line(text: &mut Vec<u8>, acked: u16, of: u16) -> Result<(), AllocError>
    ensures { OnOk result (text.new.items ≡ text.old.items ++ spaced (words_in empty_network (Installed acked of))) }
{
    let acked = Number(u64::from(acked));
    let of = Number(u64::from(of));
    append_words(text, &[Text(b"installed"), acked, Text(b"of"), of])
}

// `table H active`, `table H none`
fn table_line(text: &mut Vec<u8>, f: &Fabric, host: u16, active: bool) -> Result<(), AllocError>
    requires { IsHost f.now host }
    ensures { OnOk result (text.new.items ≡ text.old.items ++ spaced (words_in f.now (Table host active))) }
{
    let name = Text(f.name_of(Vertex::Host(host)));
    if active {
        append_words(text, &[Text(b"table"), name, Text(b"active")])
    } else {
        append_words(text, &[Text(b"table"), name, Text(b"none")])
    }
}

// `install refused CAUSE`
fn install_refused_line(text: &mut Vec<u8>, cause: InstallCause) -> Result<(), AllocError>
    ensures { OnOk result (text.new.items ≡ text.old.items
        ++ spaced (words_in empty_network (InstallRefused cause))) }
{
    let cause = Text(install_word(cause));
    append_words(text, &[Text(b"install"), Text(b"refused"), cause])
}

// Why routes aren't installed.
fn install_word(cause: InstallCause) -> &'static [u8]
    ensures { result.now ≡ install_cause cause }
{
    match cause {
        InstallCause::NoRoutes => b"noroutes",
        InstallCause::Busy => b"busy",
        InstallCause::Changed => b"changed",
        InstallCause::Installed => b"installed",
        InstallCause::Epochs => b"epochs",
    }
}

// `plan at N`
fn plan_line(text: &mut Vec<u8>, number: u128) -> Result<(), AllocError>
    ensures { OnOk result (text.new.items ≡ text.old.items ++ spaced (words_in empty_network (PlanAt number))) }
{
    let mut buffer = Buffer::new();
    append_bytes(text, b"plan at ")?;
    append_bytes(text, buffer.format(number).as_bytes())
}

// `settle rounds R resets N unacked U`
fn settle_line(text: &mut Vec<u8>, rounds: u64, resets: u64, unacked: u64) -> Result<(), AllocError>
    ensures { OnOk result (text.new.items ≡ text.old.items
        ++ spaced (words_in empty_network (Settle rounds resets unacked))) }
{
    append_numbered(text, b"settle rounds", rounds)?;
    append_numbered(text, b" resets", resets)?;
    append_numbered(text, b" unacked", unacked)
}

// `end injected N dropped M`
fn end_line(text: &mut Vec<u8>, injected: u64, dropped: u64) -> Result<(), AllocError>
    ensures { OnOk result (text.new.items ≡ text.old.items
        ++ spaced (words_in empty_network (Finish injected dropped))) }
{
    append_words(
        text,
        &[
            Text(b"end"),
            Text(b"injected"),
            Number(injected),
            Text(b"dropped"),
            Number(dropped),
        ],
    )
}
