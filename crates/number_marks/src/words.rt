//! Numbers that are marked, a bit for each.
//!
//! ```text
//!   word       0                1            2
//!   bit        0 1 2 .. 63      0 1 .. 63    0 ..
//!   number     0 1 2 .. 63     64 65 .. 127  128 ..
//! ```

ghost use Rattle.std.specs.Prelude.{◌≡◌, ◌+◌, ◌*◌, ◌/◌, ◌<◌, ◌≤◌, ◌^◌, ℕ, length, replicate, IfOk, IfSome, IfNone};
ghost use Rattle.std.specs.Prelude.{vec_len};
ghost use Rattle.std.specs.Int.{bit_at};
ghost use Rattle.number_marks.specs.Marks.{IsWritten, IsNextMark, IsLowestBit, mark_at};

use std::alloc::{AllocError, Global};

/// The numbers of a word.
const WORD: usize = 64;

/// Words in which no number is marked, with room for so many numbers.
pub fn bare(alloc: Global, numbers: usize) -> Result<Vec<u64>, AllocError>
    ensures bare { IfOk result (λ v. (k : ℕ) → mark_at v.items k ≡ 0) }
    ensures size { IfOk result (λ v. vec_len v ≡ numbers / 64 + 1) }
{
    zeros(alloc, numbers / WORD + 1)
}

// So many words of zeros.
fn zeros(alloc: Global, words: usize) -> Result<Vec<u64>, AllocError>
    ensures { IfOk result (λ v. v.items ≡ replicate words 0) }
{
    let mut zeros = Vec::with_capacity(alloc, words)?;
    while zeros.len() < words {
        zeros.push(0)?;
    }
    Ok(zeros)
}

/// Marks a number.
pub fn mark(words: &mut Vec<u64>, n: usize)
    requires { n < 64 * length words.old.items }
    ensures { IsWritten words.old.items words.new.items n 1 }
{
    let word = &mut words[n / WORD];
    *word |= 1 << (n % WORD);
}

/// Takes a number's mark away.
pub fn unmark(words: &mut Vec<u64>, n: usize)
    requires { n < 64 * length words.old.items }
    ensures { IsWritten words.old.items words.new.items n 0 }
{
    let word = &mut words[n / WORD];
    *word &= !(1 << (n % WORD));
}

/// The least marked number that isn't below another.
pub fn next_marked(words: &[u64], from: usize) -> Option<usize>
    requires { length words.now ≤ 2 ^ 32 }
    ensures next { IfSome result (IsNextMark words.now from) }
    ensures none { IfNone result ((k : ℕ) → from ≤ k → mark_at words.now k ≡ 0) }
{
    let first = from / WORD;
    if first >= words.len() {
        return None;
    }
    match lowest_from(words[first], from % WORD) {
        Some(bit) => Some(WORD * first + bit),
        None => first_from(words, first + 1),
    }
}

// The least marked number of the words from one on.
fn first_from(words: &[u64], start: usize) -> Option<usize>
    requires bounded { length words.now ≤ 2 ^ 32 }
    requires start { start ≤ length words.now }
    ensures next { IfSome result (IsNextMark words.now (64 * start)) }
    ensures none { IfNone result ((k : ℕ) → 64 * start ≤ k → mark_at words.now k ≡ 0) }
{
    for at in start..words.len() {
        if let Some(bit) = lowest_from(words[at], 0) {
            return Some(WORD * at + bit);
        }
    }
    None
}

// The lowest bit of a word that is set and isn't below another.
fn lowest_from(word: u64, from: usize) -> Option<usize>
    requires { from < 64 }
    ensures bit { IfSome result (IsLowestBit word from) }
    ensures none { IfNone result ((k : ℕ) → from ≤ k → bit_at word k ≡ 0) }
{
    let rest = word >> from;
    if rest == 0 {
        return None;
    }
    Some(from + rest.trailing_zeros() as usize)
}
