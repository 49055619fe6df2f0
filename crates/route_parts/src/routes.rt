//! Routes and entries in front of bytes. Nothing here takes memory.

ghost use Rattle.std.specs.Prelude.{◌≡◌, ◌<◌, ◌≤◌, ◌^◌, length, true, is_some, option_map, option_and_then, IfSome};
ghost use Rattle.std.specs.List.{list_all};
ghost use Rattle.world_defs.specs.Mapping.{route_front, entry_front};
ghost use Rattle.packet_defs.specs.RouteByte.{turns_of, is_route_byte};
ghost use Rattle.route_parts.specs.Reading.{rise_from, is_above};
ghost use Rattle.route_parts.specs.Viewing.{route_viewed, entry_viewed};

use crate::fronts::{byte_front, short_front};
use packet_defs::is_route_byte;

// The most turns of a route.
const MAX_TURNS: usize = 64;

/// The bytes in front that a route should have, with their number before them, and the bytes after. Whether each stands
/// for a turn isn't looked at.
pub(crate) fn route_front(bytes: &[u8]) -> Option<(&[u8], &[u8])>
    ensures value { route_viewed (option_map (λ p. (p.0.now, p.1.now)) result) ≡ route_front bytes.now }
    ensures few { IfSome result (λ p. length p.0.now ≤ 64) }
{
    let (count, rest) = byte_front(bytes)?;
    let count = usize::from(count);
    if count > MAX_TURNS || count > rest.len() {
        return None;
    }
    Some(rest.split_at(count))
}

/// Whether each is a route byte.
#[tactic(auto, using(crate::proofs::Entries::turns_there))]
pub(crate) fn are_turns(bytes: &[u8]) -> bool
    ensures { result ≡ is_some (turns_of bytes.now) }
{
    are_route_bytes(bytes)
}

// The same, byte by byte.
fn are_route_bytes(bytes: &[u8]) -> bool
    ensures { result ≡ list_all is_route_byte bytes.now }
{
    bytes.iter().all(|byte| is_route_byte(*byte))
}

/// The host and the bytes that its route should have of the entry in front, and the bytes after.
pub(crate) fn entry_front(bytes: &[u8]) -> Option<((u16, &[u8]), &[u8])>
    ensures value { entry_viewed (option_map (λ p. ((p.0.0, p.0.1.now), p.1.now)) result) ≡ entry_front bytes.now }
    ensures fits { IfSome result (λ p. (p.0.0 < 2 ^ 16) × (length p.0.1.now ≤ 64)) }
{
    let (to, bytes) = short_front(bytes)?;
    let (turns, bytes) = route_front(bytes)?;
    Some(((to, turns), bytes))
}

/// Whether so many entries are all of the bytes, and rise above a host.
pub(crate) fn rise_from(before: Option<u16>, count: u8, bytes: &[u8]) -> bool
    ensures { result ≡ rise_from before count bytes.now }
{
    let mut before = before;
    let mut left = count;
    let mut rest = bytes;
    while left > 0 {
        let Some(((to, turns), behind)) = entry_front(rest) else {
            return false;
        };
        if !are_turns(turns) {
            return false;
        }
        if !is_above(before, to) {
            return false;
        }
        before = Some(to);
        left -= 1;
        rest = behind;
    }
    rest.is_empty()
}

/// Whether a host stands above the one before.
pub(crate) fn is_above(before: Option<u16>, to: u16) -> bool
    ensures { result ≡ is_above before to }
{
    match before {
        Some(before) => before < to,
        None => true,
    }
}
