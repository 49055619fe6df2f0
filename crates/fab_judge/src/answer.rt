//! The answer of a command, and how it is read.

ghost use Rattle.std.specs.Prelude.{◌≡◌, ◌+◌, IfOk};
ghost use Rattle.std.specs.List.{list_all};
ghost use Rattle.report_lines.specs.declared.line.ReportLine.TheVariants.{NoBroken};
ghost use Rattle.judge_defs.specs.Form.{answer_from, map_block, circuit_block, routes_block, tables_block, tables_of};
ghost use Rattle.judge_defs.specs.Form.{is_all_core, pair_in, broken_block, refused_block};
ghost use Rattle.map_canon.specs.Reading.{map_part};
ghost use Rattle.fab_judge.specs.Shown.{map_in};
ghost use Rattle.fab_judge.specs.Past.{known_in};
ghost use Rattle.fab_judge.specs.Reading.{AreNumbered, begun};
ghost use Rattle.fab_judge.specs.Answers.{GivesAnswer, more_lines};
ghost use Rattle.fab_judge.specs.Blocks.{block_in, block_by};

use crate::block::{Block, block_in};
use crate::broken::read_broken;
use crate::past::Past;
use crate::ranks::read_ranks;
use crate::reader::Reader;
use crate::routes::read_routes;
use crate::shown::ShownMap;
use crate::stop::Unread;
use crate::tables::read_tables;
use fabric_map::FabricMap;
use judge_defs::{may_answer, refused_pair};
use port_graph::{Fabric, RouteSet};
use rank_cert::Ranks;
use report_lines::ReportLine;
use run_defs::Command;
use std::alloc::Global;

/// What the lines of one command say.
#[derive(Drop)]
pub(crate) enum Answer {
    /// One line alone.
    Alone(ReportLine),
    /// A line with the map that its further lines are.
    WithMap(ReportLine, FabricMap),
    /// Routes with their ranks.
    WithRoutes(RouteSet, Ranks),
    /// The tables of an installation.
    WithTables,
    /// Broken routes.
    WithBroken,
}

/// Reads the answer of a command.
pub(crate) fn read_answer(
    alloc: Global,
    f: &Fabric,
    command: &Command,
    past: &Past,
    reader: &mut Reader,
) -> Result<Answer, Unread>
    ensures said { GivesAnswer (answer_from command.now (known_in past.now) reader.old.past f.now reader.old.left)
        reader.new.left result }
    ensures numbered { IfOk result (λ a. AreNumbered (begun reader.old) reader.new (more_lines a + 1)) }
{
    reader.begin();
    match reader.next_said(f) {
        Ok((number, line)) => {
            if may_answer(command, &line) {
                let block = block_in(&line);
                read_block(alloc, f, block, number, line, past, reader)
            } else {
                Err(Unread::At(number))
            }
        }
        Err(stop) => Err(stop),
    }
}

// Reads the lines that follow the first, which has this number.
fn read_block(
    alloc: Global,
    f: &Fabric,
    block: Block,
    number: u32,
    line: ReportLine,
    past: &Past,
    reader: &mut Reader,
) -> Result<Answer, Unread>
    ensures said { GivesAnswer (block_by block number line (known_in past.now) reader.old.past f.now reader.old.left)
        reader.new.left result }
    ensures numbered { IfOk result (λ a. AreNumbered reader.old reader.new (more_lines a)) }
{
    match block {
        Block::Map => read_map_block(f, line, reader),
        Block::Circuit => read_circuit_block(f, number, line, reader),
        Block::Routes(count) => read_routes_block(alloc, f, count, &past.shown, reader),
        Block::Tables { acked, count } => {
            read_tables_block(f, number, acked, count, past, reader)
        }
        Block::Broken(from, to) => read_broken_block(f, (from, to), reader),
        Block::NoneBroken => Ok(Answer::WithBroken),
        Block::Refused => read_refused_block(f, past.adopted, reader),
        Block::Nothing => Ok(Answer::Alone(line)),
    }
}

// Reads the lines of a map.
fn read_map_block(f: &Fabric, line: ReportLine, reader: &mut Reader) -> Result<Answer, Unread>
    ensures said { GivesAnswer (map_block line (map_part reader.old.past f.now reader.old.left)) reader.new.left
        result }
    ensures numbered { IfOk result (λ a. AreNumbered reader.old reader.new (more_lines a)) }
{
    match reader.next_map(f) {
        Ok(map) => Ok(Answer::WithMap(line, map)),
        Err(stop) => Err(stop),
    }
}

// Reads the lines of a map of circuit links, after the line of this number.
fn read_circuit_block(
    f: &Fabric,
    number: u32,
    line: ReportLine,
    reader: &mut Reader,
) -> Result<Answer, Unread>
    ensures said { GivesAnswer (circuit_block number line (map_part reader.old.past f.now reader.old.left))
        reader.new.left result }
    ensures numbered { IfOk result (λ a. AreNumbered reader.old reader.new (more_lines a)) }
{
    match reader.next_map(f) {
        Ok(map) => {
            if is_all_core(&map) {
                Ok(Answer::WithMap(line, map))
            } else {
                Err(Unread::At(number))
            }
        }
        Err(stop) => Err(stop),
    }
}

// Whether no vertex of a map is marked `outside`.
fn is_all_core(map: &FabricMap) -> bool
    ensures { result ≡ is_all_core map.now }
{
    are_all(map.core())
}

// Whether each of these is true.
fn are_all(marks: &[bool]) -> bool
    ensures { result ≡ list_all (λ m. m) marks.now }
{
    for mark in marks {
        if !*mark {
            return false;
        }
    }
    true
}

// Reads so many routes, their ranks, and `endroutes`.
fn read_routes_block(
    alloc: Global,
    f: &Fabric,
    count: u64,
    shown: &Option<ShownMap>,
    reader: &mut Reader,
) -> Result<Answer, Unread>
    ensures said { GivesAnswer (routes_block count (map_in shown.now) reader.old.past f.now reader.old.left)
        reader.new.left result }
    ensures numbered { IfOk result (λ a. AreNumbered reader.old reader.new (more_lines a)) }
{
    match read_routes(alloc, f, reader, count) {
        Ok(routes) => match read_ranks(alloc, f, reader, shown) {
            Ok(ranks) => Ok(Answer::WithRoutes(routes, Ranks::new(ranks))),
            Err(stop) => Err(stop),
        },
        Err(stop) => Err(stop),
    }
}

// Reads the tables of so many hosts, of which at least so many must be active.
fn read_tables_block(
    f: &Fabric,
    number: u32,
    acked: u64,
    count: u64,
    past: &Past,
    reader: &mut Reader,
) -> Result<Answer, Unread>
    ensures said { GivesAnswer (tables_block number acked (tables_of number count past.now.routed reader.old.past f.now
        reader.old.left)) reader.new.left result }
    ensures numbered { IfOk result (λ a. AreNumbered reader.old reader.new (more_lines a)) }
{
    match read_tables(f, reader, number, count, &past.routed) {
        Ok(active) => {
            if acked <= active {
                Ok(Answer::WithTables)
            } else {
                Err(Unread::At(number))
            }
        }
        Err(stop) => Err(stop),
    }
}

// Reads the broken routes after this one, up to `endbroken`.
fn read_broken_block(f: &Fabric, first: (u16, u16), reader: &mut Reader) -> Result<Answer, Unread>
    ensures said { GivesAnswer (broken_block first reader.old.past f.now reader.old.left) reader.new.left result }
    ensures numbered { IfOk result (λ a. AreNumbered reader.old reader.new (more_lines a)) }
{
    match read_broken(f, reader, first) {
        Ok(()) => Ok(Answer::WithBroken),
        Err(stop) => Err(stop),
    }
}

// Reads what follows `broken refused noroutes`: nothing, or broken routes, where routes are adopted and two hosts have
// these names.
fn read_refused_block(f: &Fabric, adopted: bool, reader: &mut Reader) -> Result<Answer, Unread>
    ensures said { GivesAnswer (refused_block adopted (pair_in f.now NoBroken) reader.old.past f.now reader.old.left)
        reader.new.left result }
    ensures numbered { IfOk result (λ a. AreNumbered reader.old reader.new (more_lines a)) }
{
    match refused_pair(f) {
        Some(first) if adopted => read_broken_block(f, first, reader),
        _ => Ok(Answer::Alone(ReportLine::NoBroken)),
    }
}
