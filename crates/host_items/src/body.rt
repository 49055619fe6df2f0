//! The bodies of the mapper's protocol.

ghost use Rattle.std.specs.Prelude.{◌≡◌, None, option_map, IfOk};
ghost use Rattle.world_defs.specs.Mapping.{decode_mapping};
ghost use Rattle.probe.specs.Body.{probe_in};
ghost use Rattle.route_parts.specs.Reading.{part_in};
ghost use Rattle.host_items.specs.Reading.{said_of};

use probe::{BodyFault as ProbeFault, ProbeBody};
use route_parts::{BodyFault as PartFault, PartAck, RoutePart};
use std::alloc::{AllocError, Global};

/// A body of the mapper's protocol.
#[derive(Debug, Drop)]
pub enum MapperBody {
    /// A probe, or a reply to one.
    Asks(ProbeBody),
    /// A part of a table.
    TablePart(RoutePart),
    /// The acknowledgement of a part.
    Acknowledges(PartAck),
}

/// What a body says. None exactly where it isn't of the protocol.
pub fn read(alloc: Global, body: &[u8]) -> Result<Option<MapperBody>, AllocError>
    ensures { IfOk result (λ said. option_map said_of said ≡ decode_mapping body.now) }
{
    match ProbeBody::decode(alloc, body) {
        Ok(said) => Ok(Some(MapperBody::Asks(said))),
        Err(ProbeFault::NoMemory) => Err(AllocError),
        Err(ProbeFault::Malformed) => read_part(alloc, body),
    }
}

// What a body says that is no probe and no reply.
fn read_part(alloc: Global, body: &[u8]) -> Result<Option<MapperBody>, AllocError>
    requires { probe_in body.now ≡ None }
    ensures { IfOk result (λ said. option_map said_of said ≡ decode_mapping body.now) }
{
    match RoutePart::decode(alloc, body) {
        Ok(part) => Ok(Some(MapperBody::TablePart(part))),
        Err(PartFault::NoMemory) => Err(AllocError),
        Err(PartFault::Malformed) => Ok(read_ack(body)),
    }
}

// What a body says that is no part of a table either.
fn read_ack(body: &[u8]) -> Option<MapperBody>
    requires probe { probe_in body.now ≡ None }
    requires part { part_in body.now ≡ None }
    ensures { option_map said_of result ≡ decode_mapping body.now }
{
    match PartAck::decode(body) {
        Ok(ack) => Some(MapperBody::Acknowledges(ack)),
        Err(_) => None,
    }
}
