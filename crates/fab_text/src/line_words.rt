//! The words of a line.

ghost use Rattle.std.specs.Prelude.{◌≡◌, ◌∷◌, [], position, not, MatchOption, option_map};
ghost use Rattle.std.specs.List.{position_or_len};
ghost use Rattle.std.specs.Iterator.{YieldsFirstBy, item_count};
ghost use Rattle.fab_text.specs.Line.{is_blank, words_of, one_of, two_of, four_of};

use std::marker::Model;

/// The words of a line, from left to right. Contracts see the bytes that are left; `words_of` of them are the words.
#[derive(Drop)]
pub struct Words<'a> {
    rest: &'a [u8],
}

impl<'a> Model for Words<'a> {
    ghost use Rattle.std.specs.Prelude.{ℕ, List};

    ghost Value = { List ℕ };

    ghost view = { λ w. w.rest.now };
}

impl<'a> Words<'a> {
    /// The words of these bytes.
    pub(crate) fn of(line: &'a [u8]) -> Words<'a>
        ensures { result ≡ line.now }
    {
        Words { rest: line }
    }

    /// What follows the word that came last.
    pub fn rest(&self) -> &'a [u8]
        ensures { result.now ≡ self.now }
    {
        self.rest
    }

    /// The next word. None where only blanks are left.
    pub fn next_word(&mut self) -> Option<&'a [u8]>
        ensures { MatchOption result ((words_of self.old ≡ []) × (words_of self.new ≡ [])) (λ w.
            words_of self.old ≡ w.now ∷ words_of self.new) }
    {
        match split_word(self.rest) {
            Some((word, rest)) => {
                self.rest = rest;
                Some(word)
            }
            None => None,
        }
    }
}

impl<'a> Words<'a> {
    /// The one word that is left. None where there are none, or more.
    pub fn one(mut self) -> Option<&'a [u8]>
        ensures { option_map (λ w. w.now) result ≡ one_of (words_of self.entry) }
    {
        match self.next_word() {
            Some(word) if self.next_word().is_none() => Some(word),
            _ => None,
        }
    }

    /// The two words that are left. None where there are fewer, or more.
    pub fn two(mut self) -> Option<(&'a [u8], &'a [u8])>
        ensures { option_map (λ p. (p.0.now, p.1.now)) result ≡ two_of (words_of self.entry) }
    {
        match self.next_word() {
            Some(first) => match self.one() {
                Some(second) => Some((first, second)),
                None => None,
            },
            None => None,
        }
    }

    /// The four words that are left, as two pairs. None where there are fewer, or more.
    pub fn four(mut self) -> Option<((&'a [u8], &'a [u8]), (&'a [u8], &'a [u8]))>
        ensures { option_map (λ p. ((p.0.0.now, p.0.1.now), (p.1.0.now, p.1.1.now))) result
            ≡ four_of (words_of self.entry) }
    {
        let (Some(first), Some(second)) = (self.next_word(), self.next_word()) else {
            return None;
        };
        match self.two() {
            Some(others) => Some(((first, second), others)),
            None => None,
        }
    }
}

// The first word of a line, and what follows it.
fn split_word(line: &[u8]) -> Option<(&[u8], &[u8])>
    ensures { MatchOption result (words_of line.now ≡ []) (λ parts.
        words_of line.now ≡ parts.0.now ∷ words_of parts.1.now) }
{
    match word_start(line) {
        Some(start) => {
            let (_, from_word) = line.split_at(start);
            Some(from_word.split_at(word_len(from_word)))
        }
        None => None,
    }
}

/// The place of the first byte of a word.
pub(crate) fn word_start(line: &[u8]) -> Option<usize>
    ensures { result ≡ position (λ b. not (is_blank b)) line.now }
{
    line.iter().position(|b| !is_blank(*b))
}

// How many bytes come before the first blank, or at all.
fn word_len(line: &[u8]) -> usize
    ensures { result ≡ position_or_len is_blank line.now }
{
    word_end(line).unwrap_or(line.len())
}

// The place of the first blank.
fn word_end(line: &[u8]) -> Option<usize>
    ensures { result ≡ position is_blank line.now }
{
    line.iter().position(|b| is_blank(*b))
}

// Whether a byte separates words.
fn is_blank(b: u8) -> bool
    ensures { result ≡ is_blank b }
{
    b == b' ' || b == b'\t'
}

impl<'a> Iterator for Words<'a> {
    type Item = &'a [u8];

    ghost next_gives = { YieldsFirstBy (λ w. w.now) words_of };

    ghost remaining = { item_count words_of };

    fn next(&mut self) -> Option<&'a [u8]> {
        self.next_word()
    }
}
