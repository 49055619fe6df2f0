//! A word, as it is written.

ghost use Rattle.std.specs.Prelude.{◌≡◌, ◌<◌, ◌≤◌, ◌++◌, ◌∷◌, OnOk, codes, decimal};
ghost use Rattle.line_writing.specs.Words.{word_text};

use crate::hexadecimal::append_hex;
use itoa::Buffer;
use std::alloc::AllocError;

/// A word of a line.
#[derive(Clone, Copy, Debug)]
pub enum Word<'a> {
    /// These bytes.
    Text(&'a [u8]),
    /// A number in decimal.
    Number(u64),
    /// A mark with a number after it: `#3`, `+3`.
    Marked(u8, u64),
    /// A number with what stands for it: `3=event`.
    Entry(u64, &'a [u8]),
    /// Two hexadecimal digits for each of these bytes, in lower case.
    Hex(&'a [u8]),
}

/// Puts a word after a text. Most words are written with less than a call takes, so it stands in its callers.
#[inline(always)]
pub(crate) fn append_word(text: &mut Vec<u8>, word: &Word) -> Result<(), AllocError>
    ensures { OnOk result (text.new.items ≡ text.old.items ++ word_text word.now) }
{
    match word {
        Word::Text(bytes) => append_bytes(text, bytes),
        Word::Number(number) => append_number(text, *number),
        Word::Marked(mark, number) => append_marked(text, *mark, *number),
        Word::Entry(number, value) => append_entry(text, *number, value),
        Word::Hex(bytes) => append_hex(text, bytes),
    }
}

/// Puts bytes after a text. Room is asked for once, and most words are so short that less is taken byte by byte than by
/// a copy. Where memory runs out, the text stays.
pub fn append_bytes(text: &mut Vec<u8>, bytes: &[u8]) -> Result<(), AllocError>
    ensures { OnOk result (text.new.items ≡ text.old.items ++ bytes.now) }
{
    text.reserve(bytes.len())?;
    for byte in bytes {
        text.push_reserved(*byte);
    }
    Ok(())
}

// A number in decimal. Most have one digit or two, which need no buffer.
#[inline(always)]
fn append_number(text: &mut Vec<u8>, number: u64) -> Result<(), AllocError>
    ensures { OnOk result (text.new.items ≡ text.old.items ++ decimal number) }
{
    if number < 10 {
        append_digit(text, number as u8)
    } else if number < 100 {
        append_two_digits(text, number as u8)
    } else {
        append_digits(text, number)
    }
}

// A number of one digit.
fn append_digit(text: &mut Vec<u8>, number: u8) -> Result<(), AllocError>
    requires { number < 10 }
    ensures { OnOk result (text.new.items ≡ text.old.items ++ decimal number) }
{
    text.push(b'0' + number)?;
    Ok(())
}

// A number of two digits.
fn append_two_digits(text: &mut Vec<u8>, number: u8) -> Result<(), AllocError>
    requires { (10 ≤ number) × (number < 100) }
    ensures { OnOk result (text.new.items ≡ text.old.items ++ decimal number) }
{
    append_digit(text, number / 10)?;
    append_digit(text, number % 10)
}

// A number of any digits. Its buffer is no part of what each word pays for.
#[inline(never)]
fn append_digits(text: &mut Vec<u8>, number: u64) -> Result<(), AllocError>
    ensures { OnOk result (text.new.items ≡ text.old.items ++ decimal number) }
{
    let mut buffer = Buffer::new();
    text.extend_from_slice(buffer.format(number).as_bytes())
}

/// Puts a mark and a number after a text, as [`Word::Marked`] is written. Where memory runs out, a part of them may
/// stand there.
#[inline(always)]
pub fn append_marked(text: &mut Vec<u8>, mark: u8, number: u64) -> Result<(), AllocError>
    ensures { OnOk result (text.new.items ≡ text.old.items ++ mark ∷ decimal number) }
{
    text.push(mark)?;
    append_number(text, number)
}

// A number with what stands for it.
#[inline(never)]
fn append_entry(text: &mut Vec<u8>, number: u64, value: &[u8]) -> Result<(), AllocError>
    ensures { OnOk result (text.new.items ≡ text.old.items ++ (decimal number ++ codes "=" ++ value.now)) }
{
    append_number(text, number)?;
    text.push(b'=')?;
    text.extend_from_slice(value)
}
