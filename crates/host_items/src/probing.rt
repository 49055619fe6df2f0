//! The packet of a probe's body.

ghost use Rattle.std.specs.Prelude.{◌≡◌, ◌≤◌, length, IfOk};
ghost use Rattle.packet_defs.specs.Packet.{packet_of};
ghost use Rattle.world_defs.specs.Mapping.{mapping_bytes};
ghost use Rattle.probe.specs.Body.{said};

use myri_packet::{Kind, Packet, packet_front, seal};
use probe::ProbeBody;
use std::alloc::{AllocError, Global};

// The most bytes of a body.
const MAX_BODY: usize = 76;

/// The packet of a body, by a route. The body is written into the packet's own buffer.
pub(crate) fn body_packet(
    alloc: Global,
    route: &[i8],
    body: &ProbeBody,
) -> Result<Packet, AllocError>
    requires { length route.now ≤ 64 }
    ensures { IfOk result (λ p. p ≡ packet_of route.now Kind.Mapping (mapping_bytes (said body.now))) }
{
    let mut bytes = packet_front(alloc, route, Kind::Mapping, MAX_BODY)?;
    body.append(&mut bytes)?;
    seal(bytes)
}
