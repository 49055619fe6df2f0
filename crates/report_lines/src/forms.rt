//! Lines of which only the form is judged, by their first word: what follows it, as the rows of the table have it.

ghost use Rattle.std.specs.Prelude.{◌≡◌, ◌∷◌};
ghost use Rattle.fab_text.specs.Line.{words_of};
ghost use Rattle.report_lines.specs.Lines.{first_said};
ghost use Rattle.report_lines.specs.Meaning.{form_kinds};

use crate::cables::by_cable;
use crate::form::formed;
use crate::line::ReportLine;
use crate::slot::{Slot, WordKind};
use fab_text::Words;
use port_graph::Fabric;

// The slots of a form, by what stands for each.
macro_rules! form {
    ($($part:tt)*) => { [$(slot!($part)),*] };
}

// A slot.
macro_rules! slot {
    (N) => { Slot::Of(WordKind::Digits) };
    (HOST) => { Slot::Of(WordKind::HostName) };
    (END) => { Slot::AnEnd };
    ((END by $w:literal)) => { Slot::AnEndBy($w) };
    (($($w:literal)|+)) => { Slot::Of(WordKind::OneOf(&[$($w),+])) };
    ($w:literal) => { Slot::Fixed($w) };
}

/// `walk`
static WALK: [&[Slot]; 3] = [
    &form![b"host" HOST],
    &form![b"switch" (END by b"port")],
    &form![b"nothing"],
];

/// `step`
static STEP: [&[Slot]; 5] = [
    &form![(b"idle" | b"lost" | b"reset" | b"flipped" | b"expired" | b"gaveup")],
    &form![(b"injected" | b"repeated" | b"held") N],
    &form![(b"moved" | b"blocked" | b"replayed") END],
    &form![b"arrived" HOST (b"probe" | b"reply" | b"loop" | b"routes" | b"routesack" | b"message" |
        b"fragment" | b"notnext" | b"notoken" | b"ack")],
    &form![b"dropped"(
        b"outofrange"
            | b"notroute"
            | b"nocable"
            | b"newcable"
            | b"badcrc"
            | b"routeleft"
            | b"unknowntype"
            | b"malformed"
            | b"notmine"
    )],
];

/// `settle`
static SETTLE: [&[Slot]; 1] = [&form![b"rounds" N b"resets" N b"unacked" N]];

/// `plan`
static PLAN: [&[Slot]; 1] = [&form![b"at" N]];

/// `install`
static INSTALL: [&[Slot]; 1] = [&form![b"refused"(
    b"noroutes" | b"busy" | b"changed" | b"installed" | b"epochs"
)]];

/// `end`
static FINISH: [&[Slot]; 1] = [&form![b"injected" N b"dropped" N]];

/// `revoked`
static REVOKED: [&[Slot]; 1] = [&form![N]];

/// `endroutes`, `endbroken`
static ALONE: [&[Slot]; 1] = [&[]];

/// `broken`
pub(crate) static NO_BROKEN: [&[Slot]; 1] = [&form![b"refused" b"noroutes"]];

/// `routes refused`
pub(crate) static NO_MAP: [&[Slot]; 1] = [&form![b"nomap"]];

/// What a mapper counts: `map H complete`
pub(crate) static COUNTS: [&[Slot]; 1] = [&form![b"asks" N b"packets" N]];

/// What a line says that begins with this word, where it is one of these lines, or one about cables.
pub(crate) fn by_form(fabric: &Fabric, first: &[u8], args: Words) -> Option<ReportLine>
    ensures { result ≡ first_said fabric.now (form_kinds first.now) (first.now ∷ words_of args.entry) }
{
    let left = args.rest();
    if first == b"walk".as_slice() {
        formed(fabric, ReportLine::Walk, &WALK, left)
    } else if first == b"step".as_slice() {
        formed(fabric, ReportLine::Step, &STEP, left)
    } else if first == b"settle".as_slice() {
        formed(fabric, ReportLine::Settle, &SETTLE, left)
    } else if first == b"plan".as_slice() {
        formed(fabric, ReportLine::PlanAt, &PLAN, left)
    } else if first == b"endroutes".as_slice() {
        formed(fabric, ReportLine::EndRoutes, &ALONE, left)
    } else if first == b"install".as_slice() {
        formed(fabric, ReportLine::InstallRefused, &INSTALL, left)
    } else if first == b"end".as_slice() {
        formed(fabric, ReportLine::Finish, &FINISH, left)
    } else if first == b"revoked".as_slice() {
        formed(fabric, ReportLine::Revoked, &REVOKED, left)
    } else if first == b"endbroken".as_slice() {
        formed(fabric, ReportLine::EndBroken, &ALONE, left)
    } else {
        by_cable(fabric, first, args)
    }
}
