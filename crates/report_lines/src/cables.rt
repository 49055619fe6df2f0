//! Lines of cables that are pulled and plugged, and of routes that they break.

ghost use Rattle.std.specs.Prelude.{◌≡◌, ◌∷◌, [], codes};
ghost use Rattle.fab_text.specs.Line.{words_of};
ghost use Rattle.line_table.specs.declared.kind.LineKind.TheVariants.{Pulled, PullRefused, Plugged, PlugRefused};
ghost use Rattle.line_table.specs.declared.kind.LineKind.TheVariants.{Broken, NoBroken};
ghost use Rattle.report_lines.specs.Lines.{first_said};
ghost use Rattle.report_lines.specs.Meaning.{cable_kinds};

use crate::form::formed;
use crate::forms::NO_BROKEN;
use crate::line::ReportLine;
use crate::word::{end, host, is_among, is_same};
use fab_text::Words;
use port_graph::Fabric;

// Why two ports aren't joined.
static PLUG_CAUSES: [&[u8]; 2] = [b"portused", b"full"];

/// What a line about cables says that begins with this word.
pub(crate) fn by_cable(fabric: &Fabric, first: &[u8], args: Words) -> Option<ReportLine>
    ensures { result ≡ first_said fabric.now (cable_kinds first.now) (first.now ∷ words_of args.entry) }
{
    if first == b"pull".as_slice() {
        pull(fabric, args)
    } else if first == b"plug".as_slice() {
        plug(fabric, args)
    } else if first == b"broken".as_slice() {
        broken(fabric, args)
    } else {
        None
    }
}

// `V P done` or `V P refused nocable`, after the word `pull`
fn pull(fabric: &Fabric, mut args: Words) -> Option<ReportLine>
    ensures { result ≡ first_said fabric.now (Pulled ∷ PullRefused ∷ []) (codes "pull" ∷ words_of args.entry) }
{
    let (Some(v), Some(p)) = (args.next_word(), args.next_word()) else {
        return None;
    };
    let at = end(fabric, v, p)?;
    let word = args.next_word()?;
    if is_same(word, b"done".as_slice()) {
        return match args.next_word() {
            None => Some(ReportLine::Pull { at, done: true }),
            Some(_) => None,
        };
    }
    if !is_same(word, b"refused".as_slice()) {
        return None;
    }
    if !is_same(args.next_word()?, b"nocable".as_slice()) {
        return None;
    }
    match args.next_word() {
        None => Some(ReportLine::Pull { at, done: false }),
        Some(_) => None,
    }
}

// `V P W Q done` or `V P W Q refused CAUSE`, after the word `plug`
fn plug(fabric: &Fabric, mut args: Words) -> Option<ReportLine>
    ensures { result ≡ first_said fabric.now (Plugged ∷ PlugRefused ∷ []) (codes "plug" ∷ words_of args.entry) }
{
    let (Some(v), Some(p)) = (args.next_word(), args.next_word()) else {
        return None;
    };
    let a = end(fabric, v, p)?;
    let (Some(w), Some(q)) = (args.next_word(), args.next_word()) else {
        return None;
    };
    let b = end(fabric, w, q)?;
    let word = args.next_word()?;
    if is_same(word, b"done".as_slice()) {
        return match args.next_word() {
            None => Some(ReportLine::Plug { a, b, done: true }),
            Some(_) => None,
        };
    }
    if !is_same(word, b"refused".as_slice()) {
        return None;
    }
    if !is_among(&PLUG_CAUSES, args.next_word()?) {
        return None;
    }
    match args.next_word() {
        None => Some(ReportLine::Plug { a, b, done: false }),
        Some(_) => None,
    }
}

// `A B` or `refused noroutes`, after the word `broken`
fn broken(fabric: &Fabric, mut args: Words) -> Option<ReportLine>
    ensures { result ≡ first_said fabric.now (NoBroken ∷ Broken ∷ []) (codes "broken" ∷ words_of args.entry) }
{
    if let Some(line) = formed(fabric, ReportLine::NoBroken, &NO_BROKEN, args.rest()) {
        return Some(line);
    }
    let from = host(fabric, args.next_word()?)?;
    let to = host(fabric, args.next_word()?)?;
    match args.next_word() {
        None => Some(ReportLine::Broken { from, to }),
        Some(_) => None,
    }
}
