//! The bytes of a message as a line spells them.

ghost use Rattle.std.specs.Prelude.{◌≡◌, ◌<◌, true, IfOk, option_map};
ghost use Rattle.line_table.specs.Said.{is_hex_digit, hex_value, byte_said, pairs_said, bytes_said};

use gm_defs::Blob;
use std::alloc::{AllocError, Global};

/// The bytes that a word says.
pub(crate) fn read_bytes(alloc: Global, word: &[u8]) -> Result<Option<Blob>, AllocError>
    ensures { IfOk result (λ r. r ≡ bytes_said word.now) }
{
    if word == b"-".as_slice() {
        return Ok(Some(Blob::new(Vec::new(alloc))));
    }
    match read_pairs(alloc, word)? {
        Some(bytes) => Ok(Some(Blob::new(bytes))),
        None => Ok(None),
    }
}

// The bytes of two digits each.
fn read_pairs(alloc: Global, word: &[u8]) -> Result<Option<Vec<u8>>, AllocError>
    ensures { IfOk result (λ r. option_map (λ v. v.items) r ≡ pairs_said word.now) }
{
    let mut bytes = Vec::new(alloc);
    let mut left = word;
    'pairs: while let Some((a, others)) = left.split_first() {
        let Some((b, rest)) = others.split_first() else {
            return Ok(None);
        };
        match byte(*a, *b) {
            Some(x) => bytes.push(x)?,
            None => return Ok(None),
        }
        left = rest;
    }
    Ok(Some(bytes))
}

// The byte of two digits.
fn byte(a: u8, b: u8) -> Option<u8>
    ensures { result ≡ byte_said a b }
{
    if is_hex_digit(a) && is_hex_digit(b) {
        Some(16 * hex_value(a) + hex_value(b))
    } else {
        None
    }
}

// Whether a byte is a hexadecimal digit, lower case.
fn is_hex_digit(b: u8) -> bool
    ensures { result ≡ is_hex_digit b }
{
    matches!(b, b'0'..=b'9' | b'a'..=b'f')
}

// The value of a digit.
fn hex_value(b: u8) -> u8
    requires { is_hex_digit b ≡ true }
    ensures value { result ≡ hex_value b }
    ensures small { result < 16 }
{
    if b.is_ascii_digit() { b - b'0' } else { b - 87 }
}
