//! Words, one after another.

ghost use Rattle.std.specs.Prelude.{◌≡◌, ◌++◌, ◌∷◌, OnOk, flat_map, map};
ghost use Rattle.fab_text.specs.Written.{line_text, spaced};
ghost use Rattle.line_writing.specs.Words.{word_text};

use crate::word::{Word, append_word};
use std::alloc::AllocError;

/// Puts a line of these words after a text. Where memory runs out, a part of it may stand there.
pub fn append_line(text: &mut Vec<u8>, words: &[Word]) -> Result<(), AllocError>
    ensures { OnOk result (text.new.items ≡ text.old.items ++ line_text (map word_text words.now)) }
{
    append_words(text, words)?;
    text.push(b'\n')?;
    Ok(())
}

/// Puts words with one space between them after a text. Where memory runs out, a part of them may stand there.
#[tactic(auto, using(crate::proofs::Written::spaced_written))]
pub fn append_words(text: &mut Vec<u8>, words: &[Word]) -> Result<(), AllocError>
    ensures { OnOk result (text.new.items ≡ text.old.items ++ spaced (map word_text words.now)) }
{
    match words.split_first() {
        Some((first, others)) => {
            append_word(text, first)?;
            append_behind(text, others)
        }
        None => Ok(()),
    }
}

/// Puts words with a space before each after a text. Where memory runs out, a part of them may stand there.
pub fn append_behind(text: &mut Vec<u8>, words: &[Word]) -> Result<(), AllocError>
    ensures { OnOk result (text.new.items ≡ text.old.items ++ flat_map (λ w. 32 ∷ word_text w) words.now) }
{
    for word in words {
        append_spaced(text, word)?;
    }
    Ok(())
}

/// Puts a word with a space before it after a text. Where memory runs out, a part of it may stand there.
#[inline(always)]
pub fn append_spaced(text: &mut Vec<u8>, word: &Word) -> Result<(), AllocError>
    ensures { OnOk result (text.new.items ≡ text.old.items ++ 32 ∷ word_text word.now) }
{
    text.push(b' ')?;
    append_word(text, word)
}
