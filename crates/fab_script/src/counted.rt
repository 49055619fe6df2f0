//! Exactly so many words: the number of a line's words is judged before their forms.

ghost use Rattle.std.specs.Prelude.{◌≡◌, ◌∷◌, [], false, length, nat_eq, MatchOption};
ghost use Rattle.fab_text.specs.Line.{words_of};

use fab_text::Words;

/// Whether no word is left.
pub(crate) fn none(mut args: Words) -> bool
    ensures { result ≡ nat_eq 0 (length (words_of args.entry)) }
{
    args.next_word().is_none()
}

/// The one word that is left.
pub(crate) fn one(mut args: Words) -> Option<&[u8]>
    ensures { MatchOption result (nat_eq 1 (length (words_of args.entry)) ≡ false) (λ a.
        words_of args.entry ≡ a.now ∷ []) }
{
    match args.next_word() {
        Some(word) if none(args) => Some(word),
        _ => None,
    }
}

/// The two words that are left.
pub(crate) fn two(mut args: Words) -> Option<(&[u8], &[u8])>
    ensures { MatchOption result (nat_eq 2 (length (words_of args.entry)) ≡ false) (λ a.
        words_of args.entry ≡ a.0.now ∷ a.1.now ∷ []) }
{
    match args.next_word() {
        Some(first) => match one(args) {
            Some(second) => Some((first, second)),
            None => None,
        },
        None => None,
    }
}

/// The three words that are left.
pub(crate) fn three(mut args: Words) -> Option<(&[u8], &[u8], &[u8])>
    ensures { MatchOption result (nat_eq 3 (length (words_of args.entry)) ≡ false) (λ a.
        words_of args.entry ≡ a.0.now ∷ a.1.now ∷ a.2.now ∷ []) }
{
    let (Some(first), Some(second)) = (args.next_word(), args.next_word()) else {
        return None;
    };
    match one(args) {
        Some(third) => Some((first, second, third)),
        None => None,
    }
}

/// The four words that are left. They are taken in one function: each that handed on the words after its own would copy
/// them.
pub(crate) fn four(mut args: Words) -> Option<(&[u8], &[u8], &[u8], &[u8])>
    ensures { MatchOption result (nat_eq 4 (length (words_of args.entry)) ≡ false) (λ a.
        words_of args.entry ≡ a.0.now ∷ a.1.now ∷ a.2.now ∷ a.3.now ∷ []) }
{
    let (Some(first), Some(second)) = (args.next_word(), args.next_word()) else {
        return None;
    };
    let Some(third) = args.next_word() else {
        return None;
    };
    match one(args) {
        Some(fourth) => Some((first, second, third, fourth)),
        None => None,
    }
}

/// The seven words that are left: three, and four after them.
pub(crate) fn seven(
    mut args: Words,
) -> Option<((&[u8], &[u8], &[u8]), (&[u8], &[u8], &[u8], &[u8]))>
    ensures { MatchOption result (nat_eq 7 (length (words_of args.entry)) ≡ false) (λ a.
        words_of args.entry ≡ a.0.0.now ∷ a.0.1.now ∷ a.0.2.now ∷ a.1.0.now ∷ a.1.1.now ∷ a.1.2.now ∷ a.1.3.now ∷ []) }
{
    let (Some(first), Some(second)) = (args.next_word(), args.next_word()) else {
        return None;
    };
    let Some(third) = args.next_word() else {
        return None;
    };
    match four(args) {
        Some(others) => Some(((first, second, third), others)),
        None => None,
    }
}
