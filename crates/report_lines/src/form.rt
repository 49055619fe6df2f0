//! Whether words have a form.

ghost use Rattle.std.specs.Prelude.{◌≡◌, is_some, map};
ghost use Rattle.fab_text.specs.Line.{words_of};
ghost use Rattle.line_table.specs.Matching.{matched, word_said};
ghost use Rattle.report_lines.specs.Reading.{formed};
ghost use Rattle.report_lines.specs.Slots.{kind_of, slot_of};

use crate::line::ReportLine;
use crate::slot::{Slot, WordKind};
use crate::word::{host, is_among, is_end, is_number};
use fab_text::{Words, words};
use port_graph::Fabric;

/// This line, where the words that are left have one of these forms.
pub(crate) fn formed(
    fabric: &Fabric,
    line: ReportLine,
    forms: &[&[Slot]],
    left: &[u8],
) -> Option<ReportLine>
    ensures { result ≡ formed fabric.now line (map (λ f. map slot_of f.now) forms.now) (words_of left.now) }
{
    match forms.split_first() {
        Some((form, others)) => {
            if has_form(fabric, form, words(left)) {
                Some(line)
            } else {
                formed(fabric, line, others, left)
            }
        }
        None => None,
    }
}

// Whether words have the form of these slots.
#[tactic(auto, using(crate::proofs::Told::value_there, crate::proofs::Told::value_missing))]
fn has_form(fabric: &Fabric, slots: &[Slot], mut words: Words) -> bool
    ensures { result ≡ is_some (matched fabric.now (map slot_of slots.now) (words_of words.entry)) }
{
    let Some((slot, others)) = slots.split_first() else {
        return words.next_word().is_none();
    };
    match slot {
        Slot::Fixed(text) => match words.next_word() {
            Some(w) => w == *text && has_form(fabric, others, words),
            None => false,
        },
        Slot::Of(kind) => match words.next_word() {
            Some(w) => is_of(fabric, *kind, w) && has_form(fabric, others, words),
            None => false,
        },
        Slot::AnEnd => match (words.next_word(), words.next_word()) {
            (Some(v), Some(p)) => is_end(fabric, v, p) && has_form(fabric, others, words),
            _ => false,
        },
        Slot::AnEndBy(text) => match (words.next_word(), words.next_word(), words.next_word()) {
            (Some(v), Some(w), Some(p)) => {
                w == *text && is_end(fabric, v, p) && has_form(fabric, others, words)
            }
            _ => false,
        },
    }
}

// Whether a word is of a kind.
fn is_of(fabric: &Fabric, kind: WordKind, word: &[u8]) -> bool
    ensures { result ≡ is_some (word_said fabric.now (kind_of kind) word.now) }
{
    match kind {
        WordKind::Digits => is_number(word),
        WordKind::HostName => host(fabric, word).is_some(),
        WordKind::OneOf(words) => is_among(words, word),
    }
}
