//! The top call.

ghost use Rattle.std.specs.Prelude.{◌≡◌, ◌≤◌, ◌⊎◌, ℕ, List, length, IfSome, Some, Ok, Err};
ghost use Rattle.std.specs.List.{AllByRecursion};
ghost use Rattle.fab_outer.specs.Fault.{Rose};
ghost use Rattle.world_defs.specs.World.{fabric_of};
ghost use Rattle.run_defs.specs.Session.{new_session};
ghost use Rattle.fab_script.specs.Ranges.{IsCommandOf};
ghost use Rattle.input_texts.specs.Reading.{AcceptedText, input_limit, reading, IsAccepted};
ghost use Rattle.fabric_run.specs.Promise.{IsPromised};
ghost use Rattle.fabric_run.specs.Left.{InjectionsAreLeft};
ghost use Rattle.input_texts.specs.Forms.{form_of, IsRunForm, IsJudgeForm};
ghost use Rattle.fabric_run.specs.Judged.{own_judgement, IsJudgeable, IsJudgedWithReport};
ghost use Rattle.fabric_run.specs.Ends.{own_answer, SaidEnds, RunEnds};

use crate::generated::run_generated;
use crate::judged::judge_input;
use crate::promise::{judged_texts, left_injections, promised_texts};
use crate::ran::Ran;
use crate::status::Status;
use fab_outer::{ReadEnd, Sink, Source, read_all, write_all};
use fab_text::{FaultKind, TextFault, Word};
use input_texts::{Accepted, Form, form_of, read_text, refusal_line};
use run_session::{Command, Printed, Session};
use std::alloc::Global;

// The most bytes of an input.
pub(crate) const MAX_INPUT: usize = 1048576;

/// Does what the words of a command line ask for.
///
/// Under `run` it reads a text to its end, and writes the report of its script, each command's lines once it has run,
/// or the one line of a text that is refused, which reports the first fault. Under `judge` it reads a text with the
/// report that follows it, runs nothing, and writes the one line of the verdict, or that of a text that is refused.
/// Under `gen N SEED` it reads nothing: it runs the text of N hosts and the seed, and writes the summary of its report
/// once all commands ran. The session of the script is handed back.
pub fn run<S: Source, K: Sink>(alloc: Global, words: &[Word], input: &mut S, out: &mut K) -> Ran
    // How it ends, by its words and its answer: what was read, what the sink took, and which session is handed back.
    // Exactly where the words are none of the forms the answer is `Usage`, and nothing is done. Under `run` a text is
    // read whole, or not at all where memory ran out. Of an accepted one the sink took exactly what the commands that
    // ran printed, but for the end of the last one's text where a write failed; the session is theirs, with the next
    // command cut short where memory ran out for it. Of a refused one it took the line of the first fault, and after a
    // failed write a prefix of that, not the whole. Under `judge` the same is read, nothing is run, and the sink took
    // the line of the right verdict, yes where all that is judged holds, else the first line that fails and what fails
    // there, or that of the first fault of the part up to `end`. Under `gen N SEED` nothing is read, and the sink took
    // the summary of the run of the text of N and SEED, a prefix of it, not the whole, before a failed write, or
    // nothing.
    ensures ends { RunEnds (form_of words.now)
        (input.new ≡ input.old)
        (out.new ≡ out.old)
        record {
          left = S.left input.old;
          taken = K.taken out.old;
        }
        record {
          left = S.left input.new;
          taken = K.taken out.new;
        }
        result.status result.session }

    // A fault is answered only where the object's count rose, and a count never falls.
    ensures read_fault { result.status ≡ Status.ReadFault → Rose (S.faults input.old) (S.faults input.new) }
    ensures write_fault { result.status ≡ Status.WriteFault → Rose (K.faults out.old) (K.faults out.new) }
    ensures read_later { S.faults input.old ≤ S.faults input.new }
    ensures written_later { K.faults out.old ≤ K.faults out.new }

    // So under `run`, where nothing fails, the answer is the text's own, unless memory ran out.
    ensures own_answer { IsRunForm words.now → ¬ Rose (S.faults input.old) (S.faults input.new)
        → ¬ Rose (K.faults out.old) (K.faults out.new)
        → IfSome (S.left input.old) (λ text. (result.status ≡ own_answer text) ⊎ (result.status ≡ Status.NoMemory)) }

    // And so it is under `judge` with the text and its report.
    ensures own_judgement { IsJudgeForm words.now → ¬ Rose (S.faults input.old) (S.faults input.new)
        → ¬ Rose (K.faults out.old) (K.faults out.new)
        → IfSome (S.left input.old) (λ text. (result.status ≡ own_judgement text) ⊎ (result.status ≡ Status.NoMemory)) }

    // Every accepted text, and so every prefix of its script, keeps the promise. It has one run. Each command does one
    // thing, by acts that may happen, each one action of one host, of one channel or of one cable; and what its lines
    // say is true. Of the fabric before its command, a map under the word complete is right, with its marks, and one
    // host's are one map if the fabric was the same; a deep one of a quiet fabric says so; a doubtful one has its
    // cause while injections are left; whatever vertex or cable a map shows was there; a map of circuit links is the
    // circuit map to its depth. Printed routes led where they say as their map began, with ranks that rise. Each count
    // of installed hosts has its cause, and no more are counted than have their table; each settle ends settled, with
    // all got where there were tokens enough and the routes are whole. Each world after first commands, and after each
    // prefix of the acts of the next one, is reached; each that is reached is sound: the installed routes have no
    // cycle, what was got is a prefix of what was sent, and each token has one owner. What polls hand out is a prefix
    // of what sends were accepted with, and what lines `received` show of what `send` lines with a token handed in;
    // each send token comes back with its own message. The two hosts that restart are reached by their events, where an
    // incarnation's number survives its host's restart: what each incarnation got is a prefix of what it was sent, each
    // token has one owner, and polls that print sent, or unsure, are right.
    ensures promise { (text : List ℕ) (a : AcceptedText) → IsAccepted text a → IsPromised a }

    // Where the text is within the limit of an input, all its commands together inject fewer than 2^63 packets: so
    // injections are left wherever the promise asks for that.
    ensures left { (text : List ℕ) (a : AcceptedText) → length text ≤ input_limit → IsAccepted text a
        → InjectionsAreLeft a }

    // With its own report a text is judged yes: its form, complete maps, routes with their ranks, messages and tokens.
    // That is said of texts that end with LF, without lines `duo` and `plan pull`: of these no report says enough.
    ensures judged { (text : List ℕ) (a : AcceptedText) → IsAccepted text a → IsJudgeable text a
        → IsJudgedWithReport text a }
{
    promised_texts();
    left_injections();
    judged_texts();
    match form_of(words) {
        Some(Form::Run) => run_input(alloc, input, out),
        Some(Form::Judge) => judge_input(alloc, input, out),
        Some(Form::Gen { n, seed }) => run_generated(alloc, n, seed, out),
        None => Ran::without_session(Status::Usage),
    }
}

// Reads the whole input and does what it says.
fn run_input<S: Source, K: Sink>(alloc: Global, input: &mut S, out: &mut K) -> Ran
    ensures ends { RunEnds (Some Form.Run)
        (input.new ≡ input.old)
        (out.new ≡ out.old)
        record {
          left = S.left input.old;
          taken = K.taken out.old;
        }
        record {
          left = S.left input.new;
          taken = K.taken out.new;
        }
        result.status result.session }
    ensures read_fault { result.status ≡ Status.ReadFault → Rose (S.faults input.old) (S.faults input.new) }
    ensures write_fault { result.status ≡ Status.WriteFault → Rose (K.faults out.old) (K.faults out.new) }
    ensures read_later { S.faults input.old ≤ S.faults input.new }
    ensures written_later { K.faults out.old ≤ K.faults out.new }
{
    match read_all(alloc, input, MAX_INPUT) {
        Ok(text) => run_text(alloc, &text, out),
        Err(ReadEnd::ReadFault) => Ran::without_session(Status::ReadFault),
        Err(ReadEnd::TooLong) => Ran::without_session(Status::TooLong),
        Err(ReadEnd::NoMemory) => Ran::without_session(Status::NoMemory),
    }
}

// Does what a text says.
fn run_text<K: Sink>(alloc: Global, text: &[u8], out: &mut K) -> Ran
    requires { length text.now ≤ input_limit }
    ensures ends { SaidEnds (reading text.now) (out.new ≡ out.old) (K.taken out.old) (K.taken out.new)
        result.status result.session }
    ensures write_fault { result.status ≡ Status.WriteFault → Rose (K.faults out.old) (K.faults out.new) }
    ensures later { K.faults out.old ≤ K.faults out.new }
{
    match read_text(alloc, text) {
        Ok(accepted) => run_script(alloc, accepted, out),
        Err(TextFault::At { line, kind }) => write_refusal(alloc, line, kind, out),
        Err(TextFault::NoMemory) => Ran::without_session(Status::NoMemory),
    }
}

// Runs a script over its fabric, in a session of its own.
fn run_script<K: Sink>(alloc: Global, accepted: Accepted, out: &mut K) -> Ran
    requires over { AllByRecursion (IsCommandOf accepted.network) accepted.commands }
    ensures ends { SaidEnds (Ok accepted) (out.new ≡ out.old) (K.taken out.old) (K.taken out.new)
        result.status result.session }
    ensures write_fault { result.status ≡ Status.WriteFault → Rose (K.faults out.old) (K.faults out.new) }
    ensures later { K.faults out.old ≤ K.faults out.new }
{
    let Accepted { fabric, script } = accepted;
    match Session::new(alloc, fabric) {
        Ok(session) => run_commands(alloc, session, script.list(), out),
        Err(_) => Ran::without_session(Status::NoMemory),
    }
}

// Lets a new session do commands, and writes what each printed once it has run. All print in one room.
fn run_commands<K: Sink>(
    alloc: Global,
    mut session: Session,
    commands: &[Command],
    out: &mut K,
) -> Ran
    requires fresh { session ≡ new_session (fabric_of session.world) }
    requires over { AllByRecursion (IsCommandOf (fabric_of session.world)) commands.now }
    ensures ends { SaidEnds (Ok (record { network = fabric_of session.world; commands = commands.now }))
        (out.new ≡ out.old) (K.taken out.old) (K.taken out.new) result.status result.session }
    ensures write_fault { result.status ≡ Status.WriteFault → Rose (K.faults out.old) (K.faults out.new) }
    ensures later { K.faults out.old ≤ K.faults out.new }
{
    let mut printed = Printed::nothing(alloc);
    for command in commands {
        let Ok(()) = session.perform(alloc, command, &mut printed) else {
            return Ran::with_session(Status::NoMemory, session);
        };
        if write_all(out, printed.text()).is_err() {
            return Ran::with_session(Status::WriteFault, session);
        }
    }
    Ran::with_session(Status::Done, session)
}

/// Writes the line of a text that isn't accepted.
pub(crate) fn write_refusal<K: Sink>(alloc: Global, line: u32, kind: FaultKind, out: &mut K) -> Ran
    ensures ends { SaidEnds (Err (record { line = line; kind = kind })) (out.new ≡ out.old)
        (K.taken out.old) (K.taken out.new) result.status result.session }
    ensures write_fault { result.status ≡ Status.WriteFault → Rose (K.faults out.old) (K.faults out.new) }
    ensures later { K.faults out.old ≤ K.faults out.new }
{
    let Ok(text) = refusal_line(alloc, line, kind) else {
        return Ran::without_session(Status::NoMemory);
    };
    match write_all(out, &text) {
        Ok(_) => Ran::without_session(Status::Refused { line, kind }),
        Err(_) => Ran::without_session(Status::WriteFault),
    }
}
