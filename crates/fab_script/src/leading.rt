//! A keyword with a space after it: most lines begin so, and then the end of their word isn't searched for. So too a
//! name with a space after it.

ghost use Rattle.std.specs.Prelude.{◌≡◌, ◌∷◌, true, IfSome};
ghost use Rattle.fab_text.specs.Line.{words_of};
ghost use Rattle.fab_text.specs.Word.{name_test};
ghost use Rattle.fab_script.specs.Leading.{is_plain};

use fab_text::{Words, is_keyword, is_name, words};

/// The words after a keyword, where that begins what is left and one space follows it. None says nothing of the words.
/// It stands in its callers, where the keyword is known: so it is compared without a loop.
#[inline(always)]
#[tactic(auto, using(crate::proofs::Keywords::keyword_leads))]
pub(crate) fn after_keyword<'a>(args: &Words<'a>, keyword: &[u8]) -> Option<Words<'a>>
    requires { is_plain keyword.now ≡ true }
    ensures { IfSome result (λ left. words_of args.now ≡ keyword.now ∷ words_of left) }
{
    let line = args.rest();
    if line.len() < keyword.len() {
        return None;
    }
    let (front, rest) = line.split_at(keyword.len());
    if !is_keyword(front, keyword) {
        return None;
    }
    match after_space(rest) {
        Some(left) => Some(words(left)),
        None => None,
    }
}

/// The name that is the next word, and what follows it and one space. None says nothing of the words.
#[inline(always)]
pub(crate) fn after_name<'a>(args: &Words<'a>) -> Option<(&'a [u8], &'a [u8])>
    ensures { IfSome result (λ p. (words_of args.now ≡ p.0.now ∷ words_of p.1.now) × (name_test p.0.now ≡ true)) }
{
    let mut left = words(args.rest());
    let name = left.next_word()?;
    if !is_name(name) {
        return None;
    }
    let behind = after_space(left.rest())?;
    Some((name, behind))
}

/// What follows the space that comes first. None where none does.
#[inline(always)]
pub(crate) fn after_space(line: &[u8]) -> Option<&[u8]>
    ensures { IfSome result (λ left. line.now ≡ 32 ∷ left.now) }
{
    after_byte(line, b' ')
}

/// What follows this byte, where it comes first.
#[inline(always)]
pub(crate) fn after_byte(line: &[u8], byte: u8) -> Option<&[u8]>
    ensures { IfSome result (λ left. line.now ≡ byte ∷ left.now) }
{
    match line.split_first() {
        Some((first, left)) if *first == byte => Some(left),
        _ => None,
    }
}
