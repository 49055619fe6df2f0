//! The line `walk`, which alone takes memory: for its turns, once they are known and its host is.

ghost use Rattle.std.specs.Prelude.{◌≡◌, ◌≤◌, ◌∷◌, length, take, nat_le, None, Ok, IfOk, IfSome, IsErrOf, IsOk};
ghost use Rattle.net_defs.specs.Turn.{walk_refusal};
ghost use Rattle.fab_text.specs.Line.{words_of};
ghost use Rattle.fab_text.specs.Fault.{LineGives};
ghost use Rattle.run_defs.specs.declared.command.Command.{Command};
ghost use Rattle.run_defs.specs.Script.{turns_of, walk_said};
ghost use Rattle.fab_script.specs.LineLists.{in_front};

use crate::leading::after_space;
use crate::plain::next_turn;
use fab_text::{FaultKind, LineFault, Words, is_name, read_turn, words};
use port_graph::{Fabric, Vertex, Walk, WalkFault};
use run_defs::Command;
use std::alloc::Global;

// The most turns of a walk.
const MAX_TURNS: usize = 64;

/// `walk H TURN ..`
#[inline(always)]
pub(crate) fn walk(alloc: Global, fabric: &Fabric, mut args: Words) -> Result<Command, LineFault>
    ensures reading { LineGives (walk_said fabric.now (words_of args.entry)) result }
    ensures memory { IsErrOf result LineFault.NoMemory → IsOk (walk_said fabric.now (words_of args.entry)) }
{
    match args.next_word() {
        Some(name) => walk_from(alloc, fabric, name, args.rest()),
        None => Err(LineFault::Wrong(FaultKind::BadWord)),
    }
}

// A walk, where it hasn't too many turns.
fn walk_from(
    alloc: Global,
    fabric: &Fabric,
    name: &[u8],
    turns: &[u8],
) -> Result<Command, LineFault>
    ensures reading { LineGives (walk_said fabric.now (name.now ∷ words_of turns.now)) result }
    ensures memory { IsErrOf result LineFault.NoMemory → IsOk (walk_said fabric.now (name.now ∷ words_of turns.now)) }
{
    if !are_few(turns) {
        return Err(LineFault::Wrong(FaultKind::BadWord));
    }
    walk_of_words(alloc, fabric, name, turns)
}

// Whether there are few enough turns. Each but the last takes two bytes, so only those of long lines are counted.
#[tactic(auto, using(crate::proofs::Counts::few_words))]
fn are_few(turns: &[u8]) -> bool
    ensures { result ≡ nat_le (length (words_of turns.now)) 64 }
{
    turns.len() <= 2 * MAX_TURNS || are_within(words(turns), MAX_TURNS)
}

// Whether there are at most so many words. It reads one more at most.
fn are_within(mut left: Words, most: usize) -> bool
    ensures { result ≡ nat_le (length (words_of left.entry)) most }
{
    for _taken in 0..most {
        match left.next_word() {
            Some(_) => {}
            None => return true,
        }
    }
    match left.next_word() {
        Some(_) => false,
        None => true,
    }
}

// A walk of few turns: the forms from left to right, and then the host. Memory is taken once all are known.
fn walk_of_words(
    alloc: Global,
    fabric: &Fabric,
    name: &[u8],
    turns: &[u8],
) -> Result<Command, LineFault>
    requires { length (words_of turns.now) ≤ 64 }
    ensures reading { LineGives (walk_said fabric.now (name.now ∷ words_of turns.now)) result }
    ensures memory { IsErrOf result LineFault.NoMemory → IsOk (walk_said fabric.now (name.now ∷ words_of turns.now)) }
{
    if !is_name(name) {
        return Err(LineFault::Wrong(FaultKind::BadWord));
    }
    let mut read = [0; MAX_TURNS];
    match read_all(turns, &mut read) {
        Ok(count) => match fabric.find(name) {
            Some(Vertex::Host(host)) => walk_of(alloc, host, &read[..count]),
            _ => Err(LineFault::Wrong(FaultKind::NoVertex)),
        },
        Err(kind) => Err(LineFault::Wrong(kind)),
    }
}

// The walk of these turns.
fn walk_of(alloc: Global, host: u16, turns: &[i8]) -> Result<Command, LineFault>
    requires { walk_refusal turns.now ≡ None }
    ensures { LineGives (Ok (Command.Walk host turns.now)) result }
{
    match Walk::new(alloc, turns) {
        Ok(walk) => Ok(Command::Walk { host, walk }),
        Err(WalkFault::NoMemory) => Err(LineFault::NoMemory),
        Err(WalkFault::TooLong | WalkFault::TurnRange) => unreachable!(),
    }
}

// Writes down the turns that bytes say, and answers how many.
fn read_all(bytes: &[u8], turns: &mut [i8]) -> Result<usize, FaultKind>
    requires { length (words_of bytes.now) ≤ length turns.old }
    ensures said { in_front turns.new result ≡ turns_of (words_of bytes.now) }
    ensures count { IfOk result (λ n. n ≡ length (words_of bytes.now)) }
{
    match plain_turns(without_space(bytes), turns) {
        Some(count) => Ok(count),
        None => read_turns(words(bytes), turns),
    }
}

// The same words without the space that comes first, where one does.
#[inline(always)]
fn without_space(bytes: &[u8]) -> &[u8]
    ensures { words_of result.now ≡ words_of bytes.now }
{
    match after_space(bytes) {
        Some(left) => left,
        None => bytes,
    }
}

// Writes down the turns that bytes say, in one pass, and answers how many. None says nothing of the bytes.
fn plain_turns(bytes: &[u8], turns: &mut [i8]) -> Option<usize>
    ensures said { IfSome result (λ n. turns_of (words_of bytes.now) ≡ Ok (take n turns.new)) }
    ensures room { length turns.new ≡ length turns.old }
    ensures within { IfSome result (λ n. n ≤ length turns.new) }
{
    let mut left = bytes;
    let mut count = 0;
    'turns: while !left.is_empty() {
        if count == turns.len() {
            return None;
        }
        let (turn, behind) = next_turn(left)?;
        turns[count] = turn;
        left = behind;
        count += 1;
    }
    Some(count)
}

// Writes down the turns that words say, and answers how many.
fn read_turns(mut left: Words, turns: &mut [i8]) -> Result<usize, FaultKind>
    requires { length (words_of left) ≤ length turns.old }
    ensures said { in_front turns.new result ≡ turns_of (words_of left.entry) }
    ensures count { IfOk result (λ n. n ≡ length (words_of left.entry)) }
{
    let mut count = 0;
    'words: while let Some(word) = left.next_word() {
        match read_turn(word) {
            Ok(turn) => turns[count] = turn,
            Err(fault) => return Err(FaultKind::from(fault)),
        }
        count += 1;
    }
    Ok(count)
}
