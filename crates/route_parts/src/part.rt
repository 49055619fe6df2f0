//! A part of a table.

ghost use Rattle.std.specs.Prelude.{◌≡◌, ◌≤◌, ◌++◌, ◌∷◌, [], Some, true, length, IfOk, OnOk};
ghost use Rattle.std.specs.Int.{w16, w32, to_be_bytes};
ghost use Rattle.net_defs.specs.Refusal.{Refuses};
ghost use Rattle.world_defs.specs.Mapping.{MappingBody, is_part, mapping_bytes, decode_mapping, route_bytes};
ghost use Rattle.world_defs.specs.Mapping.{entry_bytes};
ghost use Rattle.route_parts.specs.Reading.{part_in, missing};

use crate::entry::{EntryList, TableEntry};
use crate::fault::BodyFault;
use crate::fronts::{byte_front, numbers_front};
use crate::reading::part_behind;
use net_defs::Walk;
use packet_defs::push_route;
use std::alloc::{AllocError, Global};
use std::marker::Model;
use world_defs::mapping_is_read;

// The kind of its body.
const KIND: u8 = 4;

// Room for a part whose routes are short.
const ROOM: usize = 128;

/// A part of a host's table. Contracts see the part of the definitions.
#[derive(Debug, Drop)]
pub struct RoutePart {
    /// Which set of routes it is of.
    pub epoch: u32,
    /// The host that sends it.
    pub mapper: u16,
    /// The host whose table it is of.
    pub dst: u16,
    /// Its number, from 0.
    pub part: u8,
    /// How many parts the table has, from 1 to 16.
    pub parts: u8,
    /// The way back to the mapper.
    pub back: Walk,
    /// Its routes, from 1 to 8, by rising address of the host to which each leads.
    pub entries: EntryList,
}

impl Model for RoutePart {
    ghost use Rattle.world_defs.specs.Mapping.{RoutePart as PartOfTable};

    ghost Value = { PartOfTable };

    ghost view = { λ p. record {
      epoch = p.epoch;
      mapper = p.mapper;
      dst = p.dst;
      part = p.part;
      parts = p.parts;
      back = p.back;
      entries = p.entries;
    } };
}

impl RoutePart {
    /// Its bytes. It has at most 16 parts, and from 1 to 8 entries whose hosts rise.
    pub fn encode(&self, alloc: Global) -> Result<Vec<u8>, AllocError>
        requires { is_part self.now ≡ true }
        ensures bytes { IfOk result (λ bytes. bytes.items ≡ mapping_bytes (MappingBody.Part self.now)) }
        ensures read { IfOk result (λ bytes. decode_mapping bytes.items ≡ Some (MappingBody.Part self.now)) }
    {
        mapping_is_read();
        let mut bytes = Vec::with_capacity(alloc, ROOM)?;
        self.append(&mut bytes)?;
        Ok(bytes)
    }

    /// Its bytes after others. Where memory runs out, a part of them may stand there.
    pub fn append(&self, bytes: &mut Vec<u8>) -> Result<(), AllocError>
        requires { is_part self.now ≡ true }
        ensures { OnOk result (bytes.new.items ≡ bytes.old.items ++ mapping_bytes (MappingBody.Part self.now)) }
    {
        append_numbers(bytes, self)?;
        push_route(bytes, self.back.turns())?;
        push_entries(bytes, self.entries.list())
    }

    /// The part that is all of the bytes. `Malformed` exactly where they are none.
    pub fn decode(alloc: Global, bytes: &[u8]) -> Result<RoutePart, BodyFault>
        ensures ok { IfOk result (λ part. decode_mapping bytes.now ≡ Some (MappingBody.Part part)) }
        ensures by_rules { IfOk result (λ part. is_part part ≡ true) }
        ensures refused { Refuses (missing (part_in bytes.now)) BodyFault.NoMemory result }
    {
        let Some((KIND, rest)) = byte_front(bytes) else {
            return Err(BodyFault::Malformed);
        };
        match numbers_front(rest) {
            Some((head, rest)) => part_behind(alloc, head, rest),
            None => Err(BodyFault::Malformed),
        }
    }
}

// The kind and the numbers in front of a part.
fn append_numbers(bytes: &mut Vec<u8>, part: &RoutePart) -> Result<(), AllocError>
    ensures { OnOk result (bytes.new.items ≡ bytes.old.items
        ++ 4 ∷ to_be_bytes w32 part.now.epoch ++ to_be_bytes w16 part.now.mapper
        ++ to_be_bytes w16 part.now.dst ++ part.now.part ∷ part.now.parts ∷ []) }
{
    bytes.push(KIND)?;
    bytes.extend_from_slice(&part.epoch.to_be_bytes())?;
    bytes.extend_from_slice(&part.mapper.to_be_bytes())?;
    bytes.extend_from_slice(&part.dst.to_be_bytes())?;
    bytes.push(part.part)?;
    bytes.push(part.parts)?;
    Ok(())
}

// Adds entries at the end of bytes, with their number before them.
fn push_entries(bytes: &mut Vec<u8>, entries: &[TableEntry]) -> Result<(), AllocError>
    requires { length entries.now ≤ 8 }
    ensures { OnOk result (bytes.new.items ≡ bytes.old.items ++ length entries.now ∷ entry_bytes entries.now) }
{
    bytes.push(entries.len() as u8)?;
    for entry in entries {
        push_entry(bytes, entry)?;
    }
    Ok(())
}

// Adds an entry at the end of bytes.
fn push_entry(bytes: &mut Vec<u8>, entry: &TableEntry) -> Result<(), AllocError>
    ensures { OnOk result (bytes.new.items ≡ bytes.old.items
        ++ (to_be_bytes w16 entry.now.to ++ route_bytes entry.now.walk)) }
{
    bytes.extend_from_slice(&entry.to.to_be_bytes())?;
    push_route(bytes, entry.walk.turns())
}
