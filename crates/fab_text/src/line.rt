//! A text cut after its first line.

ghost use Rattle.std.specs.Prelude.{◌≡◌, ◌<◌, [], length, MatchOption};
ghost use Rattle.fab_text.specs.Line.{words_of, says_nothing};
ghost use Rattle.fab_text.specs.Split.{line_front, line_back, without_return};

use crate::line_end::line_len;
use crate::line_words::word_start;

// The first line of a text without its end, and what follows it.
pub(crate) fn split_line(text: &[u8]) -> Option<(&[u8], &[u8])>
    ensures parts { MatchOption result (text.now ≡ []) (λ parts.
        (parts.0.now ≡ line_front text.now) × (parts.1.now ≡ line_back text.now)) }
    ensures shorter { MatchOption result (text.now ≡ []) (λ parts. length parts.1.now < length text.now) }
{
    if text.is_empty() {
        return None;
    }
    let (line, rest) = text.split_at(line_len(text));
    match rest.split_first() {
        Some((_, after)) => Some((without_return(line), after)),
        None => Some((line, rest)),
    }
}

// A line that LF ends, without a CR at its end.
fn without_return(line: &[u8]) -> &[u8]
    ensures { result.now ≡ without_return line.now }
{
    match line {
        [front @ .., b'\r'] => front,
        _ => line,
    }
}

// Whether a line is blank or a comment.
pub(crate) fn says_nothing(line: &[u8]) -> bool
    ensures { result ≡ says_nothing (words_of line.now) }
{
    match word_start(line) {
        Some(start) => line[start] == b'#',
        None => true,
    }
}
