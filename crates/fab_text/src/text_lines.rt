//! The lines of a text, one after another.

ghost use Rattle.std.specs.Prelude.{◌≡◌, ◌≤◌, ◌<◌, ◌+◌, ◌∷◌, [], length, MatchOption, IfSome};
ghost use Rattle.std.specs.Iterator.{YieldsFirstBy, item_count};
ghost use Rattle.fab_text.specs.Line.{LinesLeft, lines_left, numbered_lines};

use crate::line::{says_nothing, split_line};
use std::marker::Model;

/// The lines of a text that say something, with their numbers. Contracts see the number of the next line and the text
/// that is left.
#[derive(Drop)]
pub struct Lines<'a> {
    number: u32,
    rest: &'a [u8],
}

impl<'a> Model for Lines<'a> {
    ghost use Rattle.std.specs.Prelude.{ℕ, List, length, ◌+◌, ◌≤◌};
    ghost use Rattle.fab_text.specs.Line.{LinesLeft};

    ghost Value = { LinesLeft };

    ghost view = { λ l. record { number = l.number; text = l.rest.now } };

    ghost invariant = { λ l. l.number + length l.rest.now ≤ 4294967291 };
}

impl<'a> Lines<'a> {
    /// The lines of a text of which the first has this number.
    pub fn numbered_from(number: u32, text: &'a [u8]) -> Lines<'a>
        requires { number + length text.now ≤ 4294967291 }
        ensures { result ≡ record { number = number; text = text.now } }
    {
        Lines { number, rest: text }
    }

    /// The text after the line that came last, or after the lines that were passed over at the end.
    pub fn rest(&self) -> &'a [u8]
        ensures { result.now ≡ self.now.text }
    {
        self.rest
    }

    /// The next line that says something, with its number. None where only blank lines and comments are left.
    pub fn next_line(&mut self) -> Option<(u32, &'a [u8])>
        ensures lines { MatchOption result ((lines_left self.old ≡ []) × (lines_left self.new ≡ []))
            (λ l. lines_left self.old ≡ record { number = l.0; bytes = l.1.now; after = self.new.text }
            ∷ lines_left self.new) }
        ensures bounded { IfSome result (λ l. l.0 + length self.new.text ≤ 4294967290) }
        ensures shorter { MatchOption result (self.new.text ≡ []) (λ l. length self.new.text < length self.old.text) }
    {
        'passing: while let Some((line, after)) = split_line(self.rest) {
            let number = self.number;
            self.rest = after;
            self.number = number + 1;
            if !says_nothing(line) {
                return Some((number, line));
            }
        }
        None
    }
}

impl<'a> Iterator for Lines<'a> {
    type Item = (u32, &'a [u8]);

    ghost next_gives = { YieldsFirstBy (λ l. (l.0, l.1.now)) numbered_lines };

    ghost remaining = { item_count numbered_lines };

    fn next(&mut self) -> Option<(u32, &'a [u8])> {
        self.next_line()
    }
}
