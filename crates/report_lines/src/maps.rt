//! Lines of maps, circuits, ranks and installations, after their first word.

ghost use Rattle.std.specs.Prelude.{◌≡◌, ◌∷◌, [], codes, Some, None};
ghost use Rattle.net_defs.specs.Network.{empty_network};
ghost use Rattle.fab_text.specs.Line.{words_of};
ghost use Rattle.line_table.specs.declared.kind.LineKind.TheVariants.{MapComplete, MapDoubtful, MapDepth, MapNodes};
ghost use Rattle.line_table.specs.declared.kind.LineKind.TheVariants.{MapBusy, CircuitDepth, CircuitNodes, Routes};
ghost use Rattle.line_table.specs.declared.kind.LineKind.TheVariants.{NoMap, Rank, Installed, Table};
ghost use Rattle.report_lines.specs.Lines.{first_said, said_as};
ghost use Rattle.line_table.specs.Form.{HostAt};
ghost use Rattle.line_table.specs.Matching.{matched, onto};
ghost use Rattle.report_lines.specs.Meaning.{installed_where};
ghost use Rattle.report_lines.specs.Reading.{counts, map_kind, rest_said};

use crate::form::formed;
use crate::forms::{COUNTS, NO_MAP};
use crate::line::{MapSaid, ReportLine};
use crate::word::{host, is_number, is_same, turn, value, vertex};
use fab_text::Words;
use port_graph::Fabric;

/// `H WORDS asks A packets N` or `H refused busy`, after the word `map`.
pub(crate) fn map(fabric: &Fabric, mut args: Words) -> Option<ReportLine>
    ensures { result ≡ first_said fabric.now (MapComplete ∷ MapDoubtful ∷ MapDepth ∷ MapNodes ∷ MapBusy ∷ [])
        (codes "map" ∷ words_of args.entry) }
{
    let host = host(fabric, args.next_word()?)?;
    let word = args.next_word()?;
    if is_same(word, b"complete".as_slice()) {
        counted(fabric, host, MapSaid::Complete, args)
    } else if is_same(word, b"doubtful".as_slice()) {
        doubtful(fabric, host, args)
    } else if is_same(word, b"incomplete".as_slice()) {
        incomplete(fabric, host, args)
    } else if is_same(word, b"refused".as_slice()) {
        busy(host, args)
    } else {
        None
    }
}

// `asks A packets N`, after the words that say how far the map is known to be right
#[tactic(auto, using(crate::proofs::Told::told_one))]
fn counted(fabric: &Fabric, host: u16, said: MapSaid, args: Words) -> Option<ReportLine>
    ensures { result ≡ said_as None (map_kind said)
        (onto (Some (HostAt host)) (matched fabric.now counts (words_of args.entry))) None }
{
    formed(fabric, ReportLine::Map { host, said }, &COUNTS, args.rest())
}

// `N asks A packets M`, after the word `doubtful`
#[tactic(auto, using(crate::proofs::Told::told_two))]
fn doubtful(fabric: &Fabric, host: u16, mut args: Words) -> Option<ReportLine>
    ensures { result ≡ rest_said fabric.now (MapDoubtful ∷ []) 3 (HostAt host ∷ []) (words_of args.entry) }
{
    if !is_number(args.next_word()?) {
        return None;
    }
    let said = MapSaid::Doubtful;
    formed(fabric, ReportLine::Map { host, said }, &COUNTS, args.rest())
}

// `depth asks A packets M` or `nodes asks A packets M`, after the word `incomplete`
fn incomplete(fabric: &Fabric, host: u16, mut args: Words) -> Option<ReportLine>
    ensures { result ≡ rest_said fabric.now (MapDepth ∷ MapNodes ∷ []) 3 (HostAt host ∷ []) (words_of args.entry) }
{
    let cause = args.next_word()?;
    if is_same(cause, b"depth".as_slice()) {
        counted(fabric, host, MapSaid::Shallow, args)
    } else if is_same(cause, b"nodes".as_slice()) {
        counted(fabric, host, MapSaid::Overgrown, args)
    } else {
        None
    }
}

// `busy`, after the word `refused`
fn busy(host: u16, mut args: Words) -> Option<ReportLine>
    ensures { result ≡ rest_said empty_network (MapBusy ∷ []) 3 (HostAt host ∷ []) (words_of args.entry) }
{
    if !is_same(args.next_word()?, b"busy".as_slice()) {
        return None;
    }
    match args.next_word() {
        None => Some(ReportLine::MapBusy(host)),
        Some(_) => None,
    }
}

/// `H depth D asks A` or `H nodes asks A`, after the word `circuit`.
pub(crate) fn circuit(fabric: &Fabric, mut args: Words) -> Option<ReportLine>
    ensures { result ≡ first_said fabric.now (CircuitDepth ∷ CircuitNodes ∷ [])
        (codes "circuit" ∷ words_of args.entry) }
{
    let host = host(fabric, args.next_word()?)?;
    let word = args.next_word()?;
    if is_same(word, b"depth".as_slice()) {
        to_depth(host, args)
    } else if is_same(word, b"nodes".as_slice()) {
        of_nodes(host, args)
    } else {
        None
    }
}

// `D asks A`, after the word `depth`
fn to_depth(host: u16, mut args: Words) -> Option<ReportLine>
    ensures { result ≡ rest_said empty_network (CircuitDepth ∷ []) 3 (HostAt host ∷ []) (words_of args.entry) }
{
    let depth = value(args.next_word()?)?;
    if !is_same(args.next_word()?, b"asks".as_slice()) {
        return None;
    }
    if !is_number(args.next_word()?) {
        return None;
    }
    match args.next_word() {
        None => Some(ReportLine::Circuit { host, depth }),
        Some(_) => None,
    }
}

// `asks A`, after the word `nodes`
fn of_nodes(host: u16, mut args: Words) -> Option<ReportLine>
    ensures { result ≡ rest_said empty_network (CircuitNodes ∷ []) 3 (HostAt host ∷ []) (words_of args.entry) }
{
    if !is_same(args.next_word()?, b"asks".as_slice()) {
        return None;
    }
    if !is_number(args.next_word()?) {
        return None;
    }
    match args.next_word() {
        None => Some(ReportLine::CircuitNodes(host)),
        Some(_) => None,
    }
}

/// `N` or `refused nomap`, after the word `routes`.
pub(crate) fn routes(fabric: &Fabric, mut args: Words) -> Option<ReportLine>
    ensures { result ≡ first_said fabric.now (Routes ∷ NoMap ∷ []) (codes "routes" ∷ words_of args.entry) }
{
    let word = args.next_word()?;
    if is_same(word, b"refused".as_slice()) {
        return formed(fabric, ReportLine::NoMap, &NO_MAP, args.rest());
    }
    let count = value(word)?;
    match args.next_word() {
        None => Some(ReportLine::Routes(count)),
        Some(_) => None,
    }
}

/// `V P R`, after the word `rank`.
pub(crate) fn rank(fabric: &Fabric, mut args: Words) -> Option<ReportLine>
    ensures { result ≡ first_said fabric.now (Rank ∷ []) (codes "rank" ∷ words_of args.entry) }
{
    let v = vertex(fabric, args.next_word()?)?;
    let p = turn(args.next_word()?)?;
    let rank = value(args.next_word()?)?;
    match args.next_word() {
        None => Some(ReportLine::Rank { v, p, rank }),
        Some(_) => None,
    }
}

/// `K of N`, after the word `installed`.
pub(crate) fn installed(fabric: &Fabric, mut args: Words) -> Option<ReportLine>
    ensures { result ≡ first_said fabric.now (Installed ∷ []) (codes "installed" ∷ words_of args.entry) }
{
    let acked = args.next_word()?;
    if !is_number(acked) {
        return None;
    }
    if !is_same(args.next_word()?, b"of".as_slice()) {
        return None;
    }
    let count = value(args.next_word()?)?;
    match args.next_word() {
        None => installed_where(value(acked), count),
        Some(_) => None,
    }
}

// K of N hosts, where K was read and isn't above N.
fn installed_where(acked: Option<u64>, count: u64) -> Option<ReportLine>
    ensures { result ≡ installed_where acked count }
{
    match acked {
        Some(acked) if acked <= count => Some(ReportLine::Installed { acked, count }),
        _ => None,
    }
}

/// `H active` or `H none`, after the word `table`.
pub(crate) fn table(fabric: &Fabric, mut args: Words) -> Option<ReportLine>
    ensures { result ≡ first_said fabric.now (Table ∷ []) (codes "table" ∷ words_of args.entry) }
{
    let host = host(fabric, args.next_word()?)?;
    let word = args.next_word()?;
    if is_same(word, b"active".as_slice()) {
        return match args.next_word() {
            None => Some(ReportLine::Table { host, active: true }),
            Some(_) => None,
        };
    }
    if !is_same(word, b"none".as_slice()) {
        return None;
    }
    match args.next_word() {
        None => Some(ReportLine::Table {
            host,
            active: false,
        }),
        Some(_) => None,
    }
}
