//! The lines of a report as they come, with their numbers.

ghost use Rattle.std.specs.Prelude.{◌≡◌, ◌<◌, [], ◌∷◌, ◌++◌, IfOk, Some, length, slice_get};
ghost use Rattle.fab_text.specs.Line.{lines_left, words_of};
ghost use Rattle.report_lines.specs.Lines.{line_said};
ghost use Rattle.map_canon.specs.Reading.{map_part};
ghost use Rattle.fab_judge.specs.Reading.{Gives, GivesMap, HasRead, next_said, numbered, first_number, begun};
ghost use Rattle.fab_judge.specs.Reading.{unread_map};

use crate::stop::Unread;
use fab_text::{Lines, TextFault};
use fabric_map::FabricMap;
use map_canon::read_map_part;
use port_graph::Fabric;
use report_lines::{ReportLine, read_line};
use std::alloc::Global;
use std::marker::Model;

/// The lines that are left of a report, and the numbers of those of one answer that were read.
#[derive(Drop)]
pub(crate) struct Reader<'a> {
    alloc: Global,
    // The number of a line that is missing.
    past: u32,
    left: Lines<'a>,
    numbers: Vec<u32>,
}

impl<'a> Model for Reader<'a> {
    ghost use Rattle.fab_text.specs.Line.{lines_left};
    ghost use Rattle.fab_judge.specs.Reading.{ReaderState};

    ghost Value = { ReaderState };

    ghost view = { λ r. record { past = r.past; left = lines_left r.left; numbers = r.numbers.items } };
}

impl<'a> Reader<'a> {
    /// These lines, of which none was read.
    pub(crate) fn new(alloc: Global, past: u32, left: Lines<'a>) -> Reader<'a>
        ensures { result ≡ record { past = past; left = lines_left left.entry; numbers = [] } }
    {
        Reader {
            alloc,
            past,
            left,
            numbers: Vec::new(alloc),
        }
    }

    /// Another answer begins.
    pub(crate) fn begin(&mut self)
        ensures { self.new ≡ begun self.old }
    {
        self.numbers.clear();
    }

    /// The number of the line at a place among those of the answer.
    pub(crate) fn number_at(&self, place: usize) -> u32
        requires { place < length self.now.numbers }
        ensures { slice_get self.now.numbers place ≡ Some result }
    {
        self.numbers[place]
    }

    /// What the next line says, with its number.
    pub(crate) fn next_said(&mut self, f: &Fabric) -> Result<(u32, ReportLine), Unread>
        ensures said { Gives (next_said self.old.past f.now self.old.left) self.new.left result }
        ensures read { IfOk result (λ _. HasRead self.old self.new 1) }
    {
        match self.left.next_line() {
            Some((number, line)) => self.said_by(f, number, line),
            None => Err(Unread::At(self.past)),
        }
    }

    // What a line of this number says. The number is kept.
    fn said_by(&mut self, f: &Fabric, number: u32, line: &[u8]) -> Result<(u32, ReportLine), Unread>
        ensures said { Gives (numbered number self.old.left (line_said f.now (words_of line.now))) self.new.left
            result }
        ensures numbers { IfOk result (λ _. self.new.numbers ≡ self.old.numbers ++ number ∷ []) }
        ensures left { self.new.left ≡ self.old.left }
        ensures past { self.new.past ≡ self.old.past }
    {
        match read_line(self.alloc, f, line) {
            Ok(Some(said)) => match self.numbers.push(number) {
                Ok(()) => Ok((number, said)),
                Err(_) => Err(Unread::NoMemory),
            },
            Ok(None) => Err(Unread::At(number)),
            Err(_) => Err(Unread::NoMemory),
        }
    }

    /// The map whose lines are next.
    pub(crate) fn next_map(&mut self, f: &Fabric) -> Result<FabricMap, Unread>
        ensures said { GivesMap (map_part self.old.past f.now self.old.left) self.new.left result }
        ensures past { self.new.past ≡ self.old.past }
        ensures numbers { self.new.numbers ≡ self.old.numbers }
    {
        let past = self.past;
        let read = read_map_part(self.alloc, &mut self.left, past, f);
        unread_map(read)
    }

    /// The number of the next line, if one is left.
    pub(crate) fn first_left(&mut self) -> Option<u32>
        ensures { result ≡ first_number self.old.left }
    {
        match self.left.next_line() {
            Some((number, _)) => Some(number),
            None => None,
        }
    }
}

// A map that was read, or the line that is out of form.
fn unread_map(read: Result<FabricMap, TextFault>) -> Result<FabricMap, Unread>
    ensures { result ≡ unread_map read }
{
    match read {
        Ok(map) => Ok(map),
        Err(TextFault::At { line, .. }) => Err(Unread::At(line)),
        Err(TextFault::NoMemory) => Err(Unread::NoMemory),
    }
}
