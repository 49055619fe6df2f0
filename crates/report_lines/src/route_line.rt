//! The line of a route: its turns are read before memory is taken.

ghost use Rattle.std.specs.Prelude.{◌≡◌, ◌≤◌, length, nat_le, Some, IfOk, IfSome};
ghost use Rattle.fab_text.specs.Line.{words_of};
ghost use Rattle.report_lines.specs.Reading.{turns_said, turns_in_front, route_said, route_of};

use crate::line::ReportLine;
use crate::word::{host, turn};
use fab_text::{Words, words};
use port_graph::{Fabric, Route, Walk, WalkFault};
use std::alloc::{AllocError, Global};

// The most turns of a walk.
const MAX_TURNS: usize = 64;

/// `A B TURN ..`, after the word `route`, with at most 64 turns. Memory is taken for the turns.
pub(crate) fn read_route(
    alloc: Global,
    fabric: &Fabric,
    mut args: Words,
) -> Result<Option<ReportLine>, AllocError>
    ensures { IfOk result (λ r. r ≡ route_said fabric.now (words_of args.entry)) }
{
    let (Some(a), Some(b)) = (args.next_word(), args.next_word()) else {
        return Ok(None);
    };
    if !are_within(words(args.rest()), MAX_TURNS) {
        return Ok(None);
    }
    route_of_words(alloc, host(fabric, a), host(fabric, b), args.rest())
}

// Whether there are at most so many words. It reads one more at most.
fn are_within(mut left: Words, most: usize) -> bool
    ensures { result ≡ nat_le (length (words_of left.entry)) most }
{
    for _taken in 0..most {
        match left.next_word() {
            Some(_) => {}
            None => return true,
        }
    }
    match left.next_word() {
        Some(_) => false,
        None => true,
    }
}

// A route of few turns, where its hosts were read.
fn route_of_words(
    alloc: Global,
    from: Option<u16>,
    to: Option<u16>,
    turns: &[u8],
) -> Result<Option<ReportLine>, AllocError>
    requires { length (words_of turns.now) ≤ 64 }
    ensures { IfOk result (λ r. r ≡ route_of from to (turns_said (words_of turns.now))) }
{
    let (Some(from), Some(to)) = (from, to) else {
        return Ok(None);
    };
    let mut read = [0; MAX_TURNS];
    match read_turns(words(turns), &mut read) {
        Some(count) => route_of(alloc, from, to, &read[..count]),
        None => Ok(None),
    }
}

// The route of these turns, where they are a walk.
fn route_of(
    alloc: Global,
    from: u16,
    to: u16,
    turns: &[i8],
) -> Result<Option<ReportLine>, AllocError>
    ensures { IfOk result (λ r. r ≡ route_of (Some from) (Some to) (Some turns.now)) }
{
    match Walk::new(alloc, turns) {
        Ok(walk) => Ok(Some(ReportLine::Route(Route { from, to, walk }))),
        Err(WalkFault::NoMemory) => Err(AllocError),
        Err(WalkFault::TooLong | WalkFault::TurnRange) => Ok(None),
    }
}

// Writes down the turns that words say, and answers how many.
fn read_turns(mut left: Words, turns: &mut [i8]) -> Option<usize>
    requires { length (words_of left) ≤ length turns.old }
    ensures said { turns_in_front turns.new result ≡ turns_said (words_of left.entry) }
    ensures count { IfSome result (λ n. n ≡ length (words_of left.entry)) }
{
    let mut count = 0;
    'words: while let Some(word) = left.next_word() {
        match turn(word) {
            Some(turn) => turns[count] = turn,
            None => return None,
        }
        count += 1;
    }
    Some(count)
}
