//! The judgement of a report, command by command.

ghost use Rattle.std.specs.Prelude.{◌≡◌, ◌↔◌, ◌≤◌, ◌<◌, ◌+◌, ◌-◌, ◌⊎◌, ℕ, List, [], length, IfOk, IsErrOf, IsOk, Ok};
ghost use Rattle.std.specs.Prelude.{Err};
ghost use Rattle.fab_text.specs.Line.{line_count, lines_left};
ghost use Rattle.fab_text.specs.declared.fault.FaultKind.{FaultKind};
ghost use Rattle.fabric_file.specs.Reading.{fabric_reading};
ghost use Rattle.answer_defs.specs.declared.why.Why.{Why};
ghost use Rattle.answer_defs.specs.Answer.{Answer as SaidAnswer, Answered, answered};
ghost use Rattle.judge_defs.specs.Text.{IsJudgedYes, FailsFirstIn, judged_text, judged_from};
ghost use Rattle.fab_judge.specs.Past.{IsPastOf};
ghost use Rattle.fab_judge.specs.Judging.{Decides, JudgesNext, JudgesAnswer, verdict_of, stop_of};
ghost use Rattle.fab_judge.specs.Verdicts.{GivesVerdict, IsVerdict, IsFabricOf, sound_lines, sound_after};
ghost use Rattle.fab_judge.specs.Answers.{IsAs, more_lines};

use crate::answer::{Answer, read_answer};
use crate::faults::fault_of;
use crate::past::Past;
use crate::reader::Reader;
use crate::stop::{Stop, Unread};
use crate::verdict::Verdict;
use fab_script::{Script, read_script_part};
use fab_text::{Lines, TextFault, line_count};
use fabric_file::{FabricText, read_fabric};
use judge_defs::Why;
use port_graph::Fabric;
use run_defs::Command;
use std::alloc::Global;

/// Judges a text up to its line `end`, and the report that follows it.
///
/// It runs nothing: each answer is held against the text and against the answers before it. A text whose part up to
/// `end` isn't accepted is refused with its first fault, as by `fab_script::read_script`; lines `duo` and `plan pull`
/// are no commands here.
pub fn judge(alloc: Global, text: &[u8]) -> Result<Verdict, TextFault>
    requires { length text.now ≤ 4294967290 }
    // Yes exactly where all that is judged holds.
    ensures yes { IfOk result (λ v. (v ≡ Verdict.Yes) ↔ IsJudgedYes text.now) }
    // No names the first line that fails, and what fails there.
    ensures no { (line : ℕ) (why : Why) → result ≡ Ok (Verdict.No line why) → FailsFirstIn text.now line why }
    // And of a report whose first line that fails is this one, the verdict is that.
    ensures first { (line : ℕ) (why : Why) → FailsFirstIn text.now line why
        → IfOk result (λ v. v ≡ Verdict.No line why) }
    // A verdict is only of a text whose part up to `end` is accepted.
    ensures accepted { IfOk result (λ v. IsOk (judged_text text.now)) }
    // A fault is the first of that part.
    ensures fault { (line : ℕ) (kind : FaultKind) → result ≡ Err (TextFault.At line kind)
        → judged_text text.now ≡ Err record { line = line; kind = kind } }
    // Memory may run out only where a line stands before the first fault of that part, or where it has none.
    ensures memory { IsErrOf result TextFault.NoMemory
        → (0 < length (sound_lines text.now)) ⊎ IsOk (judged_text text.now) }
{
    judge_text(alloc, text)
}

// The same, as one relation.
fn judge_text(alloc: Global, text: &[u8]) -> Result<Verdict, TextFault>
    requires { length text.now ≤ 4294967290 }
    ensures verdict { GivesVerdict (judged_text text.now) result }
    ensures memory { IsErrOf result TextFault.NoMemory
        → (0 < length (sound_lines text.now)) ⊎ IsOk (judged_text text.now) }
{
    match read_fabric(alloc, text) {
        Ok(part) => judge_over(alloc, text, part),
        Err(fault) => Err(fault),
    }
}

// The same once the fabric was read.
fn judge_over(alloc: Global, text: &[u8], part: FabricText) -> Result<Verdict, TextFault>
    requires whole { length text.now ≤ 4294967290 }
    requires read { fabric_reading text.now ≡ Ok part }
    requires inside { part.next ≤ length text.now }
    requires bounded { part.line + (length text.now - part.next) ≤ 4294967290 }
    ensures verdict { GivesVerdict (judged_from (line_count text.now + 1) text.now part) result }
    ensures memory { IsErrOf result TextFault.NoMemory → (0 < length (sound_after text.now part))
        ⊎ IsOk (judged_from (line_count text.now + 1) text.now part) }
{
    let FabricText { fabric, next, line } = part;
    let (_, rest) = text.split_at(next);
    let mut left = Lines::numbered_from(line + 1, rest);
    let past = line_count(text) + 1;
    match read_script_part(alloc, &mut left, past, &fabric) {
        Ok(script) => judge_script(alloc, text, &fabric, &script, past, left),
        Err(fault) => Err(fault),
    }
}

// The same once the script was read too. The fabric that cables change is read again.
fn judge_script(
    alloc: Global,
    text: &[u8],
    f: &Fabric,
    script: &Script,
    past: u32,
    left: Lines,
) -> Result<Verdict, TextFault>
    requires whole { length text.now ≤ 4294967290 }
    requires read { IsFabricOf text.now f.now }
    ensures { IsVerdict f.now past script.now (lines_left left.entry) result }
{
    match read_fabric(alloc, text) {
        Ok(again) => {
            let mut reader = Reader::new(alloc, past, left);
            verdict_of(judge_answers(alloc, f, again.fabric, script.list(), &mut reader))
        }
        Err(TextFault::At { .. }) => unreachable!(),
        Err(TextFault::NoMemory) => Err(TextFault::NoMemory),
    }
}

// What the end of a reading comes to.
fn verdict_of(end: Result<(), Stop>) -> Result<Verdict, TextFault>
    ensures { result ≡ verdict_of end }
{
    match end {
        Ok(()) => Ok(Verdict::Yes),
        Err(Stop::Fails(line, why)) => Ok(Verdict::No { line, why }),
        Err(Stop::NoMemory) => Err(TextFault::NoMemory),
    }
}

// Judges an answer for each command, and that nothing follows.
fn judge_answers(
    alloc: Global,
    f: &Fabric,
    fabric: Fabric,
    commands: &[Command],
    reader: &mut Reader,
) -> Result<(), Stop>
    requires { fabric ≡ f.now }
    ensures { Decides f.now reader.old.past commands.now reader.old.left result }
{
    let mut past = Past::new(alloc, fabric);
    judge_all(alloc, f, commands, &mut past, reader)
}

// The same, where no answer was told so far.
fn judge_all(
    alloc: Global,
    f: &Fabric,
    commands: &[Command],
    past: &mut Past,
    reader: &mut Reader,
) -> Result<(), Stop>
    requires { IsPastOf f.now [] past.old }
    ensures { Decides f.now reader.old.past commands.now reader.old.left result }
{
    'answers: for command in commands {
        judge_next(alloc, f, command, past, reader)?;
    }
    match reader.first_left() {
        Some(line) => Err(Stop::Fails(line, Why::Form)),
        None => Ok(()),
    }
}

// Reads and judges the answer of a command.
fn judge_next(
    alloc: Global,
    f: &Fabric,
    command: &Command,
    past: &mut Past,
    reader: &mut Reader,
) -> Result<(), Stop>
    ensures { (before : List Answered) → IsPastOf f.now before past.old
        → JudgesNext f.now before command.now reader.old reader.new past.new result }
{
    match read_answer(alloc, f, command, past, reader) {
        Ok(answer) => judge_answer(alloc, f, command, past, reader, answer),
        Err(unread) => Err(stop_of(unread)),
    }
}

// Why a report isn't judged yes whose lines are no answer.
fn stop_of(unread: Unread) -> Stop
    ensures { result ≡ stop_of unread }
{
    match unread {
        Unread::At(line) => Stop::Fails(line, Why::Form),
        Unread::NoMemory => Stop::NoMemory,
    }
}

// Judges an answer that was read. The numbers of its lines are the reader's.
fn judge_answer(
    alloc: Global,
    f: &Fabric,
    command: &Command,
    past: &mut Past,
    reader: &Reader,
    answer: Answer,
) -> Result<(), Stop>
    requires { more_lines answer < length reader.now.numbers }
    ensures { (before : List Answered) (a : SaidAnswer) → IsPastOf f.now before past.old → IsAs answer a
        → JudgesAnswer f.now before (answered command.now a) reader.now past.new result }
{
    match fault_of(alloc, f, command, past, answer) {
        Ok(None) => Ok(()),
        Ok(Some((place, why))) => Err(Stop::Fails(reader.number_at(place), why)),
        Err(_) => Err(Stop::NoMemory),
    }
}
