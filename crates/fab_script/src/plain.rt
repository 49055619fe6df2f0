//! Plain numbers and turns, read in one pass: most lines have nothing else behind their keywords, with one space
//! between.
//!
//! Where one of these answers None it says nothing of the bytes, and the words are read one by one.

ghost use Rattle.std.specs.Prelude.{◌≡◌, ◌≤◌, ◌∷◌, [], map, Ok, IfSome};
ghost use Rattle.fab_text.specs.Line.{words_of};
ghost use Rattle.fab_text.specs.Word.{is_digit, u32_of};
ghost use Rattle.run_defs.specs.Script.{OfName, OfNumber, Name, Number, said_by, turns_of};
ghost use Rattle.fab_script.specs.LineLists.{behind};
ghost use Rattle.fab_script.specs.Plain.{IsNumberOf, IsNumberAhead, IsSizeAhead};

use crate::leading::{after_byte, after_name, after_space};
use fab_text::Words;

// Before one digit more, so that nine digits fit.
const MAX_FRONT: u32 = 99_999_999;

// The greatest turn; the least is its negative.
const MAX_TURN: u32 = 15;

/// The number that bytes are, where it is in a range.
#[inline(always)]
pub(crate) fn one_within(bytes: &[u8], least: u32, most: u32) -> Option<u32>
    ensures said { IfSome result (λ v. said_by (OfNumber least most ∷ []) (words_of bytes.now) ≡ Ok (Number v ∷ [])) }
    ensures within { IfSome result (λ v. v ≤ most) }
{
    let number = within(one_number(bytes)?, least, most)?;
    Some(number)
}

/// The two numbers that bytes are, where each is up to a greatest one.
#[inline(always)]
pub(crate) fn two_within(bytes: &[u8], most: u32, most_behind: u32) -> Option<(u32, u32)>
    ensures said { IfSome result (λ p. said_by (OfNumber 0 most ∷ OfNumber 0 most_behind ∷ []) (words_of bytes.now)
        ≡ Ok (Number p.0 ∷ Number p.1 ∷ [])) }
    ensures within { IfSome result (λ p. (p.0 ≤ most) × (p.1 ≤ most_behind)) }
{
    let (first, second) = two_numbers(bytes)?;
    Some((within(first, 0, most)?, within(second, 0, most_behind)?))
}

/// The three numbers that bytes are, where each is up to a greatest one.
#[inline(always)]
pub(crate) fn three_within(
    bytes: &[u8],
    most: u32,
    second_most: u32,
    third_most: u32,
) -> Option<(u32, u32, u32)>
    ensures said { IfSome result (λ p. said_by (OfNumber 0 most ∷ OfNumber 0 second_most ∷ OfNumber 0 third_most ∷ [])
        (words_of bytes.now) ≡ Ok (Number p.0 ∷ Number p.1 ∷ Number p.2 ∷ [])) }
    ensures within { IfSome result (λ p. (p.0 ≤ most) × (p.1 ≤ second_most) × (p.2 ≤ third_most)) }
{
    let (first, second, third) = three_numbers(bytes)?;
    Some((
        within(first, 0, most)?,
        within(second, 0, second_most)?,
        within(third, 0, third_most)?,
    ))
}

/// A name and the number behind it, where that is up to a greatest one.
#[inline(always)]
pub(crate) fn name_and_one<'a>(args: &Words<'a>, most: u32) -> Option<(&'a [u8], u32)>
    ensures said { IfSome result (λ p. said_by (OfName ∷ OfNumber 0 most ∷ []) (words_of args.now)
        ≡ Ok (Name p.0.now ∷ Number p.1 ∷ [])) }
    ensures within { IfSome result (λ p. p.1 ≤ most) }
{
    let (name, behind) = after_name(args)?;
    let number = within(one_number(behind)?, 0, most)?;
    Some((name, number))
}

/// A name and the three numbers behind it, where each is up to a greatest one.
#[inline(always)]
pub(crate) fn name_and_three<'a>(
    args: &Words<'a>,
    most: u32,
    second_most: u32,
    third_most: u32,
) -> Option<(&'a [u8], u32, u32, u32)>
    ensures said { IfSome result (λ p. said_by (OfName ∷ OfNumber 0 most ∷ OfNumber 0 second_most
        ∷ OfNumber 0 third_most ∷ []) (words_of args.now)
        ≡ Ok (Name p.0.now ∷ Number p.1 ∷ Number p.2 ∷ Number p.3 ∷ [])) }
    ensures within { IfSome result (λ p. (p.1 ≤ most) × (p.2 ≤ second_most) × (p.3 ≤ third_most)) }
{
    let (name, behind) = after_name(args)?;
    let (first, second, third) = three_numbers(behind)?;
    Some((
        name,
        within(first, 0, most)?,
        within(second, 0, second_most)?,
        within(third, 0, third_most)?,
    ))
}

// The number, where it is in a range.
#[inline(always)]
fn within(number: u32, least: u32, most: u32) -> Option<u32>
    ensures same { IfSome result (λ v. v ≡ number) }
    ensures least { IfSome result (λ v. least ≤ v) }
    ensures most { IfSome result (λ v. v ≤ most) }
{
    if number < least || most < number {
        return None;
    }
    Some(number)
}

// The one number that bytes are.
#[inline(always)]
fn one_number(bytes: &[u8]) -> Option<u32>
    ensures { IfSome result (λ v. map u32_of (words_of bytes.now) ≡ Ok v ∷ []) }
{
    match next_number(bytes) {
        Some((number, [])) => Some(number),
        _ => None,
    }
}

// The two numbers that bytes are.
#[inline(always)]
fn two_numbers(bytes: &[u8]) -> Option<(u32, u32)>
    ensures { IfSome result (λ p. map u32_of (words_of bytes.now) ≡ Ok p.0 ∷ Ok p.1 ∷ []) }
{
    let (first, left) = next_number(bytes)?;
    Some((first, one_number(left)?))
}

// The three numbers that bytes are.
#[inline(always)]
fn three_numbers(bytes: &[u8]) -> Option<(u32, u32, u32)>
    ensures { IfSome result (λ p. map u32_of (words_of bytes.now) ≡ Ok p.0 ∷ Ok p.1 ∷ Ok p.2 ∷ []) }
{
    let (first, left) = next_number(bytes)?;
    let (second, third) = two_numbers(left)?;
    Some((first, second, third))
}

// The number of one to nine digits that comes first, and what is left behind it and a space.
#[inline(always)]
fn next_number(bytes: &[u8]) -> Option<(u32, &[u8])>
    ensures ahead { IfSome result (λ p. IsNumberAhead bytes.now p.0 p.1.now) }
    ensures numbers { IfSome result (λ p. map u32_of (words_of bytes.now) ≡ Ok p.0 ∷ map u32_of (words_of p.1.now)) }
{
    let (number, digits) = leading_digits(bytes)?;
    let (_, rest) = bytes.split_at(digits);
    if digits == bytes.len() {
        return Some((number, rest));
    }
    match after_space(rest) {
        Some(left) => Some((number, left)),
        None => None,
    }
}

/// The turn that comes first, and what is left behind it and a space.
#[inline(always)]
pub(crate) fn next_turn(bytes: &[u8]) -> Option<(i8, &[u8])>
    ensures { IfSome result (λ p. turns_of (words_of bytes.now) ≡ behind (p.0 ∷ []) (turns_of (words_of p.1.now))) }
{
    if let Some(digits) = after_byte(bytes, b'-') {
        let (size, left) = size_ahead(digits)?;
        return Some((-(size as i8), left));
    }
    if let Some(digits) = after_byte(bytes, b'+') {
        let (size, left) = size_ahead(digits)?;
        return Some((size as i8, left));
    }
    let (size, left) = size_ahead(bytes)?;
    Some((size as i8, left))
}

// The size of a turn that comes first, and what is left behind it and a space.
#[inline(always)]
fn size_ahead(digits: &[u8]) -> Option<(u32, &[u8])>
    ensures ahead { IfSome result (λ p. IsSizeAhead digits.now p.0 p.1.now) }
    ensures within { IfSome result (λ p. p.0 ≤ 15) }
{
    let (size, left) = next_number(digits)?;
    Some((within(size, 0, MAX_TURN)?, left))
}

// The value of the digits that come first, and how many there are: one to nine.
#[inline(always)]
fn leading_digits(bytes: &[u8]) -> Option<(u32, usize)>
    ensures { IfSome result (λ p. IsNumberOf bytes.now p.1 p.0) }
{
    let mut value: u32 = 0;
    let mut count = 0;
    'digits: while count < bytes.len() && is_digit(bytes[count]) {
        if value > MAX_FRONT {
            return None;
        }
        value = value * 10 + u32::from(bytes[count] - b'0');
        count += 1;
    }
    if count == 0 {
        return None;
    }
    Some((value, count))
}

// `0` to `9`
#[inline(always)]
fn is_digit(b: u8) -> bool
    ensures { result ≡ is_digit b }
{
    b'0' <= b && b <= b'9'
}
