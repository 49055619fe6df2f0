//! Where the first line of a text ends.

ghost use Rattle.std.specs.Prelude.{◌≡◌, ◌≤◌, length, take, position};
ghost use Rattle.std.specs.List.{position_or_len};
ghost use Rattle.fab_text.specs.Line.{is_line_end};

use std::simd::prelude::*;

// How many bytes are looked at at once.
const LANES: usize = 16;

/// How many bytes come before the first LF, or at all. It is looked for among 16 bytes at once, and among the last few
/// one by one.
pub(crate) fn line_len(text: &[u8]) -> usize
    ensures { result ≡ position_or_len is_line_end text.now }
{
    let mut passed = 0;
    'passing: while LANES <= text.len() - passed {
        let before = front_len(&text[passed..]);
        passed += before;
        if before < LANES {
            return passed;
        }
    }
    passed + len_by_one(&text[passed..])
}

// How many of the first 16 bytes come before the first LF of them.
#[inline(always)]
fn front_len(text: &[u8]) -> usize
    requires { LANES ≤ length text.now }
    ensures { result ≡ position_or_len is_line_end (take 16 text.now) }
{
    let ends = u8x16::from_slice(text)
        .simd_eq(u8x16::splat(b'\n'))
        .to_bitmask();
    if ends == 0 {
        LANES
    } else {
        ends.trailing_zeros() as usize
    }
}

// How many bytes come before the first LF, or at all, one by one.
fn len_by_one(text: &[u8]) -> usize
    ensures { result ≡ position_or_len is_line_end text.now }
{
    end_by_one(text).unwrap_or(text.len())
}

// The place of the first LF.
fn end_by_one(text: &[u8]) -> Option<usize>
    ensures { result ≡ position is_line_end text.now }
{
    text.iter().position(|b| *b == b'\n')
}
