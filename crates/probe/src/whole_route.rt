//! A route that is all of the bytes.

ghost use Rattle.std.specs.Prelude.{◌≡◌, Some, IfOk};
ghost use Rattle.net_defs.specs.Refusal.{Refuses};
ghost use Rattle.world_defs.specs.Mapping.{route_front, whole};
ghost use Rattle.probe.specs.Body.{missing};
ghost use Rattle.probe.specs.declared.body.BodyFault.{BodyFault};

use crate::body::BodyFault;
use net_defs::Walk;
use packet_defs::{TurnFault, walk_of};
use std::alloc::Global;

// The most turns of a route.
const MAX_TURNS: usize = 64;

/// The route that is all of the bytes.
pub(crate) fn whole_route(alloc: Global, bytes: &[u8]) -> Result<Walk, BodyFault>
    ensures ok { IfOk result (λ walk. whole (route_front bytes.now) ≡ Some walk) }
    ensures refused { Refuses (missing (whole (route_front bytes.now))) BodyFault.NoMemory result }
{
    let Some((count, rest)) = bytes.split_first() else {
        return Err(BodyFault::Malformed);
    };
    if usize::from(*count) != rest.len() {
        return Err(BodyFault::Malformed);
    }
    if rest.len() > MAX_TURNS {
        return Err(BodyFault::Malformed);
    }
    match walk_of(alloc, rest) {
        Ok(walk) => Ok(walk),
        Err(TurnFault::Malformed) => Err(BodyFault::Malformed),
        Err(TurnFault::NoMemory) => Err(BodyFault::NoMemory),
    }
}
