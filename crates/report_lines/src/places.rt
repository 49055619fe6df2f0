//! Where a line shows that tokens are.

ghost use Rattle.std.specs.Prelude.{◌≡◌, IfOk, option_map, nat_eq, position};
ghost use Rattle.fab_text.specs.Line.{words_of};
ghost use Rattle.line_table.specs.Matching.{entry_of};
ghost use Rattle.line_table.specs.Said.{value_said};
ghost use Rattle.line_table.specs.Table.{place};
ghost use Rattle.report_lines.specs.Reading.{both_said, place_said, places_of, places_said, told_of};

use crate::PlacesSaid;
use crate::word::{is_among, value};
use fab_text::Words;
use port_ledgers::ToldPlace;
use std::alloc::{AllocError, Global};

// Where a token may be.
static PLACES: [&[u8]; 4] = [b"client", b"queue", b"provided", b"event"];

/// The send tokens up to the word `recv`, and the receive tokens after it.
pub(crate) fn read_both(
    alloc: Global,
    mut left: Words,
) -> Result<Option<(PlacesSaid, PlacesSaid)>, AllocError>
    ensures { IfOk result (λ r. r ≡ both_said (words_of left.entry)) }
{
    let mut sends = Vec::new(alloc);
    'words: while let Some(word) = left.next_word() {
        if word == b"recv".as_slice() {
            return with_recvs(alloc, sends, left);
        }
        match place(word) {
            Some(e) => sends.push(e)?,
            None => return Ok(None),
        }
    }
    Ok(None)
}

// The send tokens with the receive tokens that are left.
fn with_recvs(
    alloc: Global,
    sends: Vec<ToldPlace>,
    left: Words,
) -> Result<Option<(PlacesSaid, PlacesSaid)>, AllocError>
    ensures { IfOk result (λ r. r ≡ option_map (λ es. (sends.items, es)) (places_said (words_of left.entry))) }
{
    match read_places(alloc, left)? {
        Some(recvs) => Ok(Some((PlacesSaid::new(sends), PlacesSaid::new(recvs)))),
        None => Ok(None),
    }
}

// The tokens that are left.
fn read_places(alloc: Global, mut left: Words) -> Result<Option<Vec<ToldPlace>>, AllocError>
    ensures { IfOk result (λ r. option_map (λ v. v.items) r ≡ places_said (words_of left.entry)) }
{
    let mut places = Vec::new(alloc);
    'words: while let Some(word) = left.next_word() {
        match place(word) {
            Some(e) => places.push(e)?,
            None => return Ok(None),
        }
    }
    Ok(Some(places))
}

// `NUMBER=PLACE`
fn place(word: &[u8]) -> Option<ToldPlace>
    ensures { result ≡ place_said word.now }
{
    match equals_sign(word) {
        Some(at) => {
            let (number, rest) = word.split_at(at);
            placed(number, &rest[1..])
        }
        None => None,
    }
}

// The place of the first `=`.
fn equals_sign(word: &[u8]) -> Option<usize>
    ensures { result ≡ position (nat_eq 61) word.now }
{
    word.iter().position(|b| b'=' == *b)
}

// A token by its number and its place: with the client, or in one of the port's lists.
fn placed(number: &[u8], at: &[u8]) -> Option<ToldPlace>
    ensures { result ≡ told_of (entry_of (places_of place) at.now (value_said number.now)) }
{
    match value(number) {
        Some(number) if is_among(&PLACES, at) => Some(ToldPlace {
            number,
            with_client: at == b"client".as_slice(),
        }),
        _ => None,
    }
}
