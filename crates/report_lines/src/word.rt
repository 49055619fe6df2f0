//! Single words: hosts and ends of the fabric, numbers, turns, and vertices of a map.

ghost use Rattle.std.specs.Prelude.{◌≡◌, ◌≤◌, nat_le, IsTrue, IfSome, if◌then◌else◌, is_some, map, option_map};
ghost use Rattle.std.specs.List.{list_all};
ghost use Rattle.std.specs.Str.Parse.{digits_value};
ghost use Rattle.net_defs.specs.Building.{vertex_named};
ghost use Rattle.fab_text.specs.Word.{is_digit, number_test};
ghost use Rattle.line_table.specs.Said.{number_said, value_said, turn_said, host_said, end_said};
ghost use Rattle.line_table.specs.Matching.{is_among};
ghost use Rattle.line_table.specs.Said.{vertex_said};
ghost use Rattle.report_lines.specs.Reading.{IsSame};

use fab_text::read_turn;
use map_defs::MapVertex;
use port_graph::{End, Fabric, Vertex};

/// Whether a word is this text.
pub(crate) fn is_same(word: &[u8], text: &[u8]) -> bool
    ensures { IsSame result word.now text.now }
{
    word == text
}

/// Whether a word is one of these.
pub(crate) fn is_among(words: &[&[u8]], word: &[u8]) -> bool
    ensures { result ≡ is_among (map (λ w. w.now) words.now) word.now }
{
    match words.split_first() {
        Some((first, others)) => word == *first || is_among(others, word),
        None => false,
    }
}

/// Whether a word is one or more digits: a number of any size.
#[tactic(auto, using(crate::proofs::Numbers::number_long))]
pub(crate) fn is_number(w: &[u8]) -> bool
    ensures { result ≡ number_test w.now }
{
    !w.is_empty() && are_digits(w)
}

// Whether each byte is a digit.
fn are_digits(w: &[u8]) -> bool
    ensures { result ≡ list_all is_digit w.now }
{
    w.iter().all(|b| matches!(b, b'0'..=b'9'))
}

/// The number that a word says, which may be at most so large.
pub(crate) fn number(w: &[u8], most: u64) -> Option<u64>
    ensures said { result ≡ number_said most w.now }
    ensures within { IfSome result (λ v. v ≤ most) }
{
    if !is_number(w) {
        return None;
    }
    value_within(w, most)
}

// The value of digits, where it is at most so large.
fn value_within(digits: &[u8], most: u64) -> Option<u64>
    requires { IsTrue (number_test digits.now) }
    ensures value { result
        ≡ (if nat_le (digits_value 10 digits.now) most then Some (digits_value 10 digits.now) else None) }
    ensures within { IfSome result (λ v. v ≤ most) }
{
    let mut value: u128 = 0;
    for digit in digits {
        value = value * 10 + u128::from(*digit - b'0');
        if value > u128::from(most) {
            return None;
        }
    }
    Some(value as u64)
}

/// A number of which something is judged: at most 2^64 - 1.
pub fn value(w: &[u8]) -> Option<u64>
    ensures { result ≡ value_said w.now }
{
    number(w, u64::MAX)
}

/// The number that a word says, which may be at most so large.
pub fn small(w: &[u8], most: u8) -> Option<u8>
    ensures { result ≡ number_said most w.now }
{
    match number(w, u64::from(most)) {
        Some(v) => Some(v as u8),
        None => None,
    }
}

/// A turn, or the port of a map.
pub(crate) fn turn(w: &[u8]) -> Option<i8>
    ensures { result ≡ turn_said w.now }
{
    match read_turn(w) {
        Ok(t) => Some(t),
        Err(_) => None,
    }
}

/// The address of the host of this name. None where the fabric has no such host.
pub fn host(fabric: &Fabric, name: &[u8]) -> Option<u16>
    ensures { result ≡ host_said fabric.now name.now }
{
    match fabric.find(name) {
        Some(Vertex::Host(h)) => Some(h),
        _ => None,
    }
}

/// Whether `V P` is an end of the fabric.
pub(crate) fn is_end(fabric: &Fabric, v: &[u8], p: &[u8]) -> bool
    ensures { result ≡ is_some (end_said fabric.now v.now p.now) }
{
    end(fabric, v, p).is_some()
}

/// `V P`: an end of the fabric.
pub(crate) fn end(fabric: &Fabric, v: &[u8], p: &[u8]) -> Option<End>
    ensures { result ≡ end_said fabric.now v.now p.now }
{
    match (fabric.find(v), value(p)) {
        (Some(v), Some(p)) if p < u64::from(fabric.ports(v)) => Some(End { v, p: p as u8 }),
        _ => None,
    }
}

/// A vertex of a map: `#K` is a switch, another word a host of the fabric.
pub(crate) fn vertex(fabric: &Fabric, w: &[u8]) -> Option<MapVertex>
    ensures { result ≡ vertex_said fabric.now w.now }
{
    match w {
        [b'#', digits @ ..] => switch(digits),
        _ => match host(fabric, w) {
            Some(h) => Some(MapVertex::Host(h)),
            None => None,
        },
    }
}

// A switch of a map by its number.
fn switch(digits: &[u8]) -> Option<MapVertex>
    ensures { result ≡ option_map MapVertex.Switch (number_said 4294967295 digits.now) }
{
    match number(digits, u64::from(u32::MAX)) {
        Some(k) => Some(MapVertex::Switch(k as u32)),
        None => None,
    }
}
