//! The judgement of a report that follows its text.

ghost use Rattle.std.specs.Prelude.{◌≡◌, ◌≤◌, List, ℕ, length, IfOk, Some, Ok};
ghost use Rattle.fab_outer.specs.Fault.{Rose};
ghost use Rattle.input_texts.specs.Reading.{input_limit};
ghost use Rattle.judge_defs.specs.Text.{JudgedText, judged_text};
ghost use Rattle.fabric_run.specs.Ends.{JudgedEnds, RunEnds};
ghost use Rattle.fabric_run.specs.Judged.{IsRightVerdict, verdict_text, why_word};

use crate::ran::Ran;
use crate::status::Status;
use crate::top::{MAX_INPUT, write_refusal};
use fab_judge::{Verdict, Why, judge};
use fab_outer::{ReadEnd, Sink, Source, read_all, write_all};
use fab_text::TextFault;
use input_texts::Form;
use line_writing::Word::{Number, Text};
use line_writing::append_line;
use std::alloc::{AllocError, Global};

/// Reads the whole input and judges it.
pub(crate) fn judge_input<S: Source, K: Sink>(alloc: Global, input: &mut S, out: &mut K) -> Ran
    ensures ends { RunEnds (Some Form.Judge)
        (input.new ≡ input.old)
        (out.new ≡ out.old)
        record {
          left = S.left input.old;
          taken = K.taken out.old;
        }
        record {
          left = S.left input.new;
          taken = K.taken out.new;
        }
        result.status result.session }
    ensures read_fault { result.status ≡ Status.ReadFault → Rose (S.faults input.old) (S.faults input.new) }
    ensures write_fault { result.status ≡ Status.WriteFault → Rose (K.faults out.old) (K.faults out.new) }
    ensures read_later { S.faults input.old ≤ S.faults input.new }
    ensures written_later { K.faults out.old ≤ K.faults out.new }
{
    match read_all(alloc, input, MAX_INPUT) {
        Ok(text) => judge_text(alloc, &text, out),
        Err(ReadEnd::ReadFault) => Ran::without_session(Status::ReadFault),
        Err(ReadEnd::TooLong) => Ran::without_session(Status::TooLong),
        Err(ReadEnd::NoMemory) => Ran::without_session(Status::NoMemory),
    }
}

// Judges a text with its report.
fn judge_text<K: Sink>(alloc: Global, text: &[u8], out: &mut K) -> Ran
    requires { length text.now ≤ input_limit }
    ensures ends { JudgedEnds text.now (judged_text text.now) (out.new ≡ out.old) (K.taken out.old)
        (K.taken out.new) result.status result.session }
    ensures write_fault { result.status ≡ Status.WriteFault → Rose (K.faults out.old) (K.faults out.new) }
    ensures later { K.faults out.old ≤ K.faults out.new }
{
    match judge(alloc, text) {
        Ok(verdict) => write_verdict(alloc, verdict, out),
        Err(TextFault::At { line, kind }) => write_refusal(alloc, line, kind, out),
        Err(TextFault::NoMemory) => Ran::without_session(Status::NoMemory),
    }
}

// Writes the line of a verdict.
fn write_verdict<K: Sink>(alloc: Global, verdict: Verdict, out: &mut K) -> Ran
    ensures ends { (text : List ℕ) (j : JudgedText) → IsRightVerdict text verdict
        → JudgedEnds text (Ok j) (out.new ≡ out.old) (K.taken out.old) (K.taken out.new) result.status result.session }
    ensures write_fault { result.status ≡ Status.WriteFault → Rose (K.faults out.old) (K.faults out.new) }
    ensures later { K.faults out.old ≤ K.faults out.new }
{
    let Ok(text) = verdict_line(alloc, verdict) else {
        return Ran::without_session(Status::NoMemory);
    };
    match write_all(out, &text) {
        Ok(_) => Ran::without_session(Status::Done),
        Err(_) => Ran::without_session(Status::WriteFault),
    }
}

// The line of a verdict.
fn verdict_line(alloc: Global, verdict: Verdict) -> Result<Vec<u8>, AllocError>
    ensures { IfOk result (λ text. text.items ≡ verdict_text verdict) }
{
    let mut text = Vec::new(alloc);
    match verdict {
        Verdict::Yes => append_line(&mut text, &[Text(b"judge"), Text(b"yes")])?,
        Verdict::No { line, why } => append_line(
            &mut text,
            &[
                Text(b"judge"),
                Text(b"no"),
                Number(u64::from(line)),
                Text(why_word(why)),
            ],
        )?,
    }
    Ok(text)
}

// The word of what fails.
fn why_word(why: Why) -> &'static [u8]
    ensures { result.now ≡ why_word why }
{
    match why {
        Why::Form => b"form",
        Why::Map => b"map",
        Why::Route => b"route",
        Why::Rank => b"rank",
        Why::Message => b"message",
        Why::Token => b"token",
    }
}
