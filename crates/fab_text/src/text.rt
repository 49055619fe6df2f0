//! Lines, words, and how many lines there are.

ghost use Rattle.std.specs.Prelude.{◌≡◌, ◌≤◌, length, count_by};
ghost use Rattle.fab_text.specs.Line.{is_line_end, is_unended, line_count, LinesLeft};

use crate::line_words::Words;
use crate::text_lines::Lines;

/// The lines of a text by their numbers, which count from 1, without blank lines and comments.
///
/// LF ends a line, the last one may lack it, and a CR directly before an LF is dropped. It takes no memory.
pub fn lines(text: &[u8]) -> Lines<'_>
    requires { length text.now ≤ 4294967290 }
    ensures { result ≡ record { number = 1; text = text.now } }
{
    Lines::numbered_from(1, text)
}

/// The words of a line: its longest pieces without a space or a tab. It takes no memory.
pub fn words(line: &[u8]) -> Words<'_>
    ensures { result ≡ line.now }
{
    Words::of(line)
}

/// How many lines a text has: one for each LF, and one where bytes follow the last.
pub fn line_count(text: &[u8]) -> u32
    requires { length text.now ≤ 4294967290 }
    ensures { result ≡ line_count text.now }
{
    let ends = text.iter().filter(|b| **b == b'\n').count() as u32;
    if is_unended(text) { ends + 1 } else { ends }
}

// Whether bytes follow the last LF.
fn is_unended(text: &[u8]) -> bool
    ensures { result ≡ is_unended text.now }
{
    match text.last() {
        Some(last) => *last != b'\n',
        None => false,
    }
}
