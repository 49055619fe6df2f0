//! All lines of a script.

ghost use Rattle.std.specs.Prelude.{◌≡◌, ◌<◌, ◌≤◌, ◌+◌, ◌⊎◌, length, nat_eq, true, false, IfOk, IsErrOf, IsOk};
ghost use Rattle.std.specs.List.{AllByRecursion};
ghost use Rattle.fab_text.specs.Line.{is_blank, line_count, lines_left, words_of};
ghost use Rattle.fab_text.specs.Fault.{LineGives, TextGives};
ghost use Rattle.run_defs.specs.Script.{ended, is_end, script_reading};
ghost use Rattle.fab_script.specs.LineLists.{behind};
ghost use Rattle.fab_script.specs.Lists.{sound_lines};
ghost use Rattle.fab_script.specs.Parts.{begins_with, is_unjudged, allowed_command, front_part, front_sound};
ghost use Rattle.fab_script.specs.Parts.{script_part, PartGives, FrontGives};
ghost use Rattle.fab_script.specs.Ranges.{IsCommandOf};

use crate::read_command;
use fab_text::{FaultKind, LineFault, Lines, TextFault, Words, is_keyword, line_count, words};
use port_graph::Fabric;
use run_defs::Command;
use std::alloc::Global;
use std::marker::Model;

/// The commands of a script, in order, of which the last is `Finish`. Contracts see their list.
#[derive(Debug, Drop)]
pub struct Script {
    commands: Vec<Command>,
}

impl Model for Script {
    ghost use Rattle.std.specs.Prelude.{List};
    ghost use Rattle.run_defs.specs.declared.command.Command.{Command};

    ghost Value = { List Command };

    ghost view = { λ s. s.commands.items };
}

impl Script {
    /// The commands, in the order of their lines.
    pub fn list(&self) -> &[Command]
        ensures { result.now ≡ self.now }
    {
        &self.commands
    }
}

/// Reads the script of a text: the lines after its line `script`, which has the number `line`. Names are those of
/// the fabric.
///
/// A script that isn't of the form is refused with its first fault: the first line that has one, and in it, in this
/// order, the first word (with `plan` and `step` the second word too), the number of words, each further word's form
/// from left to right, and then the rules of the fabric: `NoVertex` for a name that no vertex has, or a switch's
/// where a host must stand, and `PortRange` for a port that its vertex lacks. A script without `end` is refused at
/// the line after its last.
pub fn read_script(alloc: Global, text: &[u8], line: u32, f: &Fabric) -> Result<Script, TextFault>
    requires { line + length text.now ≤ 4294967290 }
    // Exactly the commands that the lines say, or exactly the first fault.
    ensures reading { TextGives (script_reading f.now line text.now) result }
    // Memory may run out only where a line stands before the first fault: one that has a fault takes none.
    ensures memory { IsErrOf result TextFault.NoMemory → 0 < length (sound_lines f.now line text.now) }
    // They name hosts and ends of the fabric, with numbers in the ranges of their places.
    ensures ranged { IfOk result (λ s. AllByRecursion (IsCommandOf f.now) s) }
{
    read_lines(alloc, text, line, f)
}

/// Reads the lines of a script that a report follows: up to `end`, after which `left` stands then. Its first fault is
/// that of `read_script`, but that a line `duo` or `plan pull` is `BadWord`, since no report says enough of it, that no
/// line after `end` is a fault, and that without `end` the line `past` is named.
pub fn read_script_part(
    alloc: Global,
    left: &mut Lines,
    past: u32,
    f: &Fabric,
) -> Result<Script, TextFault>
    // Exactly the commands that the lines say, with the lines after them, or exactly the first fault.
    ensures reading { PartGives (script_part past f.now (lines_left left.old)) (lines_left left.new) result }
    // Memory may run out only where a command stands before the first fault, or where there is no fault.
    ensures memory { IsErrOf result TextFault.NoMemory → (0 < length (front_sound false f.now (lines_left left.old)))
        ⊎ IsOk (script_part past f.now (lines_left left.old)) }
{
    let mut commands = read_front(alloc, left, past, &[], f, false)?;
    if commands.push(Command::Finish).is_err() {
        return Err(TextFault::NoMemory);
    }
    Ok(Script { commands })
}

// The same as `read_script`, without what each command is.
#[tactic(auto, using(crate::proofs::Parts::front_memory, crate::proofs::Parts::whole_memory))]
fn read_lines(alloc: Global, text: &[u8], line: u32, f: &Fabric) -> Result<Script, TextFault>
    requires { line + length text.now ≤ 4294967290 }
    ensures reading { TextGives (script_reading f.now line text.now) result }
    ensures memory { IsErrOf result TextFault.NoMemory → 0 < length (sound_lines f.now line text.now) }
{
    let mut left = Lines::numbered_from(line + 1, text);
    match read_front(alloc, &mut left, line + 1, text, f, true) {
        Ok(commands) => finished(commands, left),
        Err(fault) => Err(fault),
    }
}

// The commands of the lines before `end`, after which `left` stands then; `every` allows lines of which no report says
// enough. Without `end` the line is named that comes so many after `past` as `text` has: they are counted only then.
fn read_front(
    alloc: Global,
    left: &mut Lines,
    past: u32,
    text: &[u8],
    f: &Fabric,
    every: bool,
) -> Result<Vec<Command>, TextFault>
    requires { (length text.now ≤ 4294967290) × (past + line_count text.now ≤ 4294967295) }
    ensures reading { FrontGives (front_part every (past + line_count text.now) f.now (lines_left left.old))
        (lines_left left.new) result }
    ensures memory { IsErrOf result TextFault.NoMemory → 0 < length (front_sound every f.now (lines_left left.old)) }
{
    let mut commands = Vec::new(alloc);
    'lines: while let Some((number, line)) = left.next_line() {
        if is_end(line) {
            return Ok(commands);
        }
        let command = match read_allowed(alloc, f, line, every) {
            Ok(command) => command,
            Err(fault) => return Err(fault.at(number)),
        };
        if commands.push(command).is_err() {
            return Err(TextFault::NoMemory);
        }
    }
    Err(TextFault::At {
        line: past + line_count(text),
        kind: FaultKind::NoEnd,
    })
}

// The command of a line, where each is one, or where those of which no report says enough are none.
fn read_allowed(alloc: Global, f: &Fabric, line: &[u8], every: bool) -> Result<Command, LineFault>
    ensures reading { LineGives (allowed_command every f.now (words_of line.now)) result }
    ensures memory { IsErrOf result LineFault.NoMemory → IsOk (allowed_command every f.now (words_of line.now)) }
{
    if !every && is_unjudged(words(line)) {
        return Err(LineFault::Wrong(FaultKind::BadWord));
    }
    read_command(alloc, f, line)
}

// Whether no report says enough of a line: `duo` or `plan pull`.
fn is_unjudged(mut left: Words) -> bool
    ensures { result ≡ is_unjudged (words_of left.entry) }
{
    match left.next_word() {
        Some(first) => {
            first == b"duo".as_slice()
                || (first == b"plan".as_slice() && begins_with(b"pull", left))
        }
        None => false,
    }
}

// Whether the first of the words is this one.
fn begins_with(word: &[u8], mut left: Words) -> bool
    ensures { result ≡ begins_with word.now (words_of left.entry) }
{
    match left.next_word() {
        Some(first) => first == word,
        None => false,
    }
}

// The commands with `end` after them, where nothing that says something follows it.
fn finished(mut commands: Vec<Command>, mut left: Lines) -> Result<Script, TextFault>
    ensures reading { TextGives (behind commands.items (ended (lines_left left.entry))) result }
    ensures memory { IsErrOf result TextFault.NoMemory → IsOk (ended (lines_left left.entry)) }
{
    if let Some((line, _)) = left.next_line() {
        return Err(TextFault::At {
            line,
            kind: FaultKind::AfterEnd,
        });
    }
    if commands.push(Command::Finish).is_err() {
        return Err(TextFault::NoMemory);
    }
    Ok(Script { commands })
}

// Whether a line is `end`. Most begin with another letter, which tells it at once.
fn is_end(line: &[u8]) -> bool
    ensures { result ≡ is_end (words_of line.now) }
{
    if begins_otherwise(line) {
        return false;
    }
    match words(line).one() {
        Some(word) => is_keyword(word, b"end"),
        None => false,
    }
}

// Whether a line begins with another letter than `end`.
#[tactic(auto, using(crate::proofs::Ends::other_word))]
fn begins_otherwise(line: &[u8]) -> bool
    ensures { result ≡ true → is_end (words_of line.now) ≡ false }
{
    !line.is_empty() && is_other_letter(line[0])
}

// Whether a byte is neither a blank nor the first letter of `end`.
fn is_other_letter(b: u8) -> bool
    ensures { result ≡ true → (nat_eq b 101 ≡ false) × (is_blank b ≡ false) }
{
    b != b'e' && b != b' ' && b != b'\t'
}
