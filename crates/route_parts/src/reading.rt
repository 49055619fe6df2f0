//! From bytes to a part, once its numbers are known.

ghost use Rattle.std.specs.Prelude.{◌≡◌, ◌<◌, ◌≤◌, ◌^◌, ◌&&◌, length, true, is_some, Some, None, IfOk, IfSome};
ghost use Rattle.std.specs.Prelude.{if◌then◌else◌};
ghost use Rattle.net_defs.specs.Refusal.{Refuses};
ghost use Rattle.world_defs.specs.Mapping.{is_part, entries_front, whole};
ghost use Rattle.packet_defs.specs.RouteByte.{turns_of};
ghost use Rattle.route_parts.specs.declared.fault.BodyFault.TheVariants.{Malformed, NoMemory};
ghost use Rattle.route_parts.specs.Reading.{part_behind, rise_from, missing};
ghost use Rattle.route_parts.specs.Viewing.{part_viewed, is_ruled};

use crate::entry::{EntryList, TableEntry};
use crate::fault::BodyFault;
use crate::fronts::byte_front;
use crate::head::Head;
use crate::part::RoutePart;
use crate::routes::{are_turns, entry_front, is_above, rise_from, route_front};
use net_defs::Walk;
use packet_defs::{TurnFault, walk_of};
use std::alloc::{AllocError, Global};

/// The part of these numbers whose routes are all of the bytes.
pub(crate) fn part_behind(alloc: Global, head: Head, bytes: &[u8]) -> Result<RoutePart, BodyFault>
    requires { (head.epoch < 2 ^ 32) × (head.mapper < 2 ^ 16) × (head.dst < 2 ^ 16) }
    ensures ok { IfOk result (λ part. part_behind head bytes.now ≡ Some part) }
    ensures by_rules { IfOk result (λ part. is_part part ≡ true) }
    ensures refused { Refuses (missing (part_behind head bytes.now)) BodyFault.NoMemory result }
{
    let Some((back, rest)) = route_front(bytes) else {
        return Err(BodyFault::Malformed);
    };
    let Some((count, rest)) = byte_front(rest) else {
        return Err(BodyFault::Malformed);
    };
    if !is_ruled(head, count) {
        return Err(BodyFault::Malformed);
    }
    match read_part(alloc, head, back, count, rest) {
        Ok(read) => match read {
            Some(part) => Ok(part),
            None => Err(BodyFault::Malformed),
        },
        Err(_) => Err(fault_without_memory(back, count, rest)),
    }
}

// Whether the numbers of a part are by the rules, with so many entries.
fn is_ruled(head: Head, count: u8) -> bool
    ensures { result ≡ is_ruled head count }
{
    head.part < head.parts && head.parts <= 16 && 1 <= count && count <= 8
}

// Why nothing was read, where memory ran out: the bytes are looked at without any.
fn fault_without_memory(back: &[u8], count: u8, bytes: &[u8]) -> BodyFault
    ensures { result ≡ (if is_some (turns_of back.now) && rise_from None count bytes.now then NoMemory else Malformed) }
{
    if are_turns(back) && rise_from(None, count, bytes) {
        BodyFault::NoMemory
    } else {
        BodyFault::Malformed
    }
}

// The part of these numbers, by the bytes of its way back and of its entries. None where they are none.
fn read_part(
    alloc: Global,
    head: Head,
    back: &[u8],
    count: u8,
    bytes: &[u8],
) -> Result<Option<RoutePart>, AllocError>
    requires few { length back.now ≤ 64 }
    ensures part { IfOk result (λ read. IfSome read (λ part. part_viewed head back.now count bytes.now ≡ Some part)) }
    ensures there { IfOk result (λ read. is_some read
        ≡ (is_some (turns_of back.now) && rise_from None count bytes.now)) }
{
    let Some(back) = read_route(alloc, back)? else {
        return Ok(None);
    };
    let Some(entries) = read_entries(alloc, count, bytes)? else {
        return Ok(None);
    };
    Ok(Some(RoutePart {
        epoch: head.epoch,
        mapper: head.mapper,
        dst: head.dst,
        part: head.part,
        parts: head.parts,
        back,
        entries,
    }))
}

// The route of bytes. None where they are none.
fn read_route(alloc: Global, bytes: &[u8]) -> Result<Option<Walk>, AllocError>
    requires { length bytes.now ≤ 64 }
    ensures { IfOk result (λ walk. turns_of bytes.now ≡ walk) }
{
    match walk_of(alloc, bytes) {
        Ok(walk) => Ok(Some(walk)),
        Err(TurnFault::NoMemory) => Err(AllocError),
        Err(TurnFault::Malformed) => Ok(None),
    }
}

// So many entries that are all of the bytes, and rise. None where they are none.
fn read_entries(alloc: Global, count: u8, bytes: &[u8]) -> Result<Option<EntryList>, AllocError>
    ensures entries { IfOk result (λ read. IfSome read (λ es. whole (entries_front count bytes.now) ≡ Some es)) }
    ensures rise { IfOk result (λ read. is_some read ≡ rise_from None count bytes.now) }
{
    let mut entries = Vec::with_capacity(alloc, usize::from(count))?;
    let mut before = None;
    let mut left = count;
    let mut rest = bytes;
    while left > 0 {
        let Some(((to, turns), behind)) = entry_front(rest) else {
            return Ok(None);
        };
        let Some(walk) = read_route(alloc, turns)? else {
            return Ok(None);
        };
        if !is_above(before, to) {
            return Ok(None);
        }
        entries.push(TableEntry { to, walk })?;
        before = Some(to);
        left -= 1;
        rest = behind;
    }
    if rest.is_empty() {
        Ok(Some(EntryList::new(entries)))
    } else {
        Ok(None)
    }
}
