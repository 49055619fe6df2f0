//! Bytes put into room that was made for them at the end of a text.
//!
//! A line of many short words is put together so: each byte that is pushed onto a text alone takes a test for room, and
//! writes how long the text is.

ghost use Rattle.std.specs.Prelude.{◌≡◌, ◌≤◌, ◌<◌, ◌+◌, ◌++◌, ◌∷◌, [], length, replicate, take, decimal, IfOk};

use itoa::Buffer;
use std::alloc::AllocError;

/// Makes room for so many bytes after a text, which are zeros until others are put there: where it begins.
pub(crate) fn make_room(text: &mut Vec<u8>, room: usize) -> Result<usize, AllocError>
    ensures begin { IfOk result (λ begin. begin ≡ length text.old.items) }
    ensures zeros { IfOk result (λ begin. text.new.items ≡ text.old.items ++ replicate room 0) }
{
    let begin = text.len();
    let Some(end) = begin.checked_add(room) else {
        return Err(AllocError);
    };
    text.resize(end, 0)?;
    Ok(begin)
}

/// Puts bytes at a place: where they end.
#[inline(always)]
pub(crate) fn put(room: &mut [u8], at: usize, bytes: &[u8]) -> usize
    requires { at + length bytes.now ≤ length room.old }
    ensures end { result ≡ at + length bytes.now }
    ensures size { length room.new ≡ length room.old }
    ensures bytes { take result room.new ≡ take at room.old ++ bytes.now }
{
    let end = at + bytes.len();
    room[at..end].copy_from_slice(bytes);
    end
}

/// Puts words and then a number at a place: where they end. It stands in its callers, where the words are known.
#[inline(always)]
pub(crate) fn put_numbered(room: &mut [u8], at: usize, words: &[u8], number: u32) -> usize
    requires { at + length words.now + 41 ≤ length room.old }
    ensures most { result ≤ at + length words.now + 41 }
    ensures size { length room.new ≡ length room.old }
    ensures bytes { take result room.new ≡ take at room.old ++ (words.now ++ 32 ∷ decimal number) }
{
    let behind = put(room, at, words);
    let digits = put(room, behind, b" ");
    put_number(room, digits, number)
}

/// Puts a number at a place: where it ends. Most have one digit or two, which need no buffer.
#[inline(always)]
#[tactic(auto, using(std::proofs::lemmas::Fmt::decimal_digit, crate::proofs::Writing::tens))]
pub(crate) fn put_number(room: &mut [u8], at: usize, number: u32) -> usize
    requires { at + 40 ≤ length room.old }
    ensures most { result ≤ at + 40 }
    ensures size { length room.new ≡ length room.old }
    ensures bytes { take result room.new ≡ take at room.old ++ decimal number }
{
    if number < 10 {
        put(room, at, &[b'0' + number as u8])
    } else if number < 100 {
        let (tens, ones) = ((number / 10) as u8, (number % 10) as u8);
        put(room, at, &[b'0' + tens, b'0' + ones])
    } else {
        put_digits(room, at, number)
    }
}

// Puts a number of any digits at a place: where it ends. Its buffer is no part of what each number pays for.
#[inline(never)]
fn put_digits(room: &mut [u8], at: usize, number: u32) -> usize
    requires { at + 40 ≤ length room.old }
    ensures most { result ≤ at + 40 }
    ensures size { length room.new ≡ length room.old }
    ensures bytes { take result room.new ≡ take at room.old ++ decimal number }
{
    let mut buffer = Buffer::new();
    put(room, at, buffer.format(number).as_bytes())
}
