//! The ranks of an answer.

ghost use Rattle.std.specs.Prelude.{◌≡◌, ◌+◌, List, IfOk, None, Some, length};
ghost use Rattle.fab_text.specs.Line.{TextLine};
ghost use Rattle.judge_defs.specs.Form.{rank_lines, rank_due, rank_told, where_above, is_rank_above};
ghost use Rattle.map_defs.specs.NetMap.{port_below};
ghost use Rattle.fab_judge.specs.Reading.{Gives, GivesItems, HasRead};
ghost use Rattle.fab_judge.specs.Blocks.{next_rank, rank_of_line};
ghost use Rattle.fab_judge.specs.Shown.{map_in};

use crate::reader::Reader;
use crate::shown::ShownMap;
use crate::stop::Unread;
use judge_defs::is_end_of_routes;
use map_defs::{MapVertex, RankEntry};
use port_graph::Fabric;
use report_lines::ReportLine;
use std::alloc::Global;

/// Reads ranks up to `endroutes`, which rise by their channels.
pub(crate) fn read_ranks(
    alloc: Global,
    f: &Fabric,
    reader: &mut Reader,
    shown: &Option<ShownMap>,
) -> Result<Vec<RankEntry>, Unread>
    ensures said { GivesItems (rank_lines (map_in shown.now) None reader.old.past f.now reader.old.left)
        reader.new.left result }
    ensures read { IfOk result (λ ranks. HasRead reader.old reader.new (length ranks.items + 1)) }
{
    let mut ranks = Vec::new(alloc);
    let mut before = None;
    'lines: loop {
        let next = next_rank(f, reader, shown, before)?;
        match next {
            Some(rank) => {
                if ranks.push(rank).is_err() {
                    return Err(Unread::NoMemory);
                }
                before = Some(rank);
            }
            None => return Ok(ranks),
        }
    }
}

// The next rank, or none at `endroutes`.
fn next_rank(
    f: &Fabric,
    reader: &mut Reader,
    shown: &Option<ShownMap>,
    before: Option<RankEntry>,
) -> Result<Option<RankEntry>, Unread>
    ensures said { Gives (next_rank (map_in shown.now) before reader.old.past f.now reader.old.left) reader.new.left
        result }
    ensures read { IfOk result (λ _. HasRead reader.old reader.new 1) }
{
    match reader.next_said(f) {
        Ok((number, line)) => rank_of_line(shown, before, number, &line),
        Err(stop) => Err(stop),
    }
}

// The rank of the line of this number, or none where it is `endroutes`.
fn rank_of_line(
    shown: &Option<ShownMap>,
    before: Option<RankEntry>,
    number: u32,
    line: &ReportLine,
) -> Result<Option<RankEntry>, Unread>
    ensures { (left : List TextLine) → Gives (rank_of_line (map_in shown.now) before number left (Some line.now)) left
        result }
{
    if is_end_of_routes(line) {
        return Ok(None);
    }
    match rank_due(shown, before, line) {
        Some(rank) => Ok(Some(rank)),
        None => Err(Unread::At(number)),
    }
}

// The rank of a line, where it may stand after the one before it.
fn rank_due(
    shown: &Option<ShownMap>,
    before: Option<RankEntry>,
    line: &ReportLine,
) -> Option<RankEntry>
    ensures { result ≡ rank_due (map_in shown.now) before line.now }
{
    match line {
        ReportLine::Rank { v, p, rank } => where_above(
            shown,
            before,
            rank_told(shown, *v, *p, *rank),
        ),
        _ => None,
    }
}

// A rank, where it may stand after the one before it.
fn where_above(
    shown: &Option<ShownMap>,
    before: Option<RankEntry>,
    entry: Option<RankEntry>,
) -> Option<RankEntry>
    ensures { result ≡ where_above (map_in shown.now) before entry }
{
    match entry {
        Some(entry) if is_rank_above(shown, before, entry) => Some(entry),
        _ => None,
    }
}

// A rank of the last map, where the map has its vertex; where no map was shown, no vertex is known.
fn rank_told(shown: &Option<ShownMap>, v: MapVertex, p: i8, rank: u64) -> Option<RankEntry>
    ensures { result ≡ rank_told (map_in shown.now) v p rank }
{
    match shown {
        Some(shown) => match shown.place_of(v) {
            Some(v) => Some(RankEntry { v, p, rank }),
            None => None,
        },
        None => Some(RankEntry { v: 0, p, rank }),
    }
}

// Whether a rank comes after the one before it by its channel; where no map was shown, channels aren't known.
fn is_rank_above(shown: &Option<ShownMap>, before: Option<RankEntry>, entry: RankEntry) -> bool
    ensures { result ≡ is_rank_above (map_in shown.now) before entry }
{
    match (shown, before) {
        (Some(_), Some(before)) => is_below(before, entry),
        _ => true,
    }
}

// Whether a channel comes before another.
fn is_below(b: RankEntry, k: RankEntry) -> bool
    ensures { result ≡ port_below record { v = b.v; p = b.p } record { v = k.v; p = k.p } }
{
    b.v < k.v || (b.v == k.v && b.p < k.p)
}
