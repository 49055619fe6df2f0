//! Every host gives up the epoch of the adopted routes.

ghost use Rattle.std.specs.Prelude.{◌≡◌, ◌≤◌, Ok, IfOk};
ghost use Rattle.world_defs.specs.World.{host_count};
ghost use Rattle.world_defs.specs.Step.{step, steps};
ghost use Rattle.world_defs.specs.declared.event.Event.TheVariants.{Revoke};
ghost use Rattle.fab_world.specs.Events.{IsHostOf};
ghost use Rattle.fab_remap.specs.Remap.{effect_of, revocations, revoked_count};

use crate::events::{happen, is_done};
use fab_world::{Event, World};
use std::alloc::{AllocError, Global};

/// [`World::step`] of [`Event::Revoke`] for every host, by rising address: how many weren't idle. It takes no memory,
/// so all of them happen.
pub fn revoke(alloc: Global, w: &mut World) -> Result<u32, AllocError>
    ensures count { result ≡ Ok (revoked_count w.old) }
    ensures at_most_hosts { IfOk result (λ n. n ≤ host_count w.old) }
    ensures after { w.new ≡ (steps w.old (revocations w.old)).1 }
    ensures cables { w.new.links.cables ≡ w.old.links.cables }
    ensures hosts { host_count w.new ≡ host_count w.old }
    ensures adopted { w.new.adopted ≡ w.old.adopted }
{
    let mut revoked = 0;
    for host in 0..w.hosts() {
        if revoke_host(alloc, w, host) {
            revoked += 1;
        }
    }
    Ok(revoked)
}

// One host gives it up: whether that was possible.
fn revoke_host(alloc: Global, w: &mut World, host: u16) -> bool
    requires { IsHostOf w.old host }
    ensures event { step w.old (Revoke host) ≡ (effect_of result, w.new) }
    ensures hosts { host_count w.new ≡ host_count w.old }
{
    let effect = happen(alloc, w, Event::Revoke(host));
    is_done(&effect)
}
