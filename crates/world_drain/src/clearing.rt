//! Many events in a row: all packets run out, and those that are stuck then are taken away.

ghost use Rattle.std.specs.Prelude.{◌≡◌, ◌≤◌, true, length, IfOk, OnOk, OnErr};
ghost use Rattle.world_defs.specs.Links.{is_idle};
ghost use Rattle.world_defs.specs.Traffic.{IsLawfulTraffic};
ghost use Rattle.world_defs.specs.World.{host_count};
ghost use Rattle.world_defs.specs.Step.{steps};
ghost use Rattle.world_defs.specs.Drain.{resets_of, reset_count};
ghost use Rattle.world_defs.specs.Logs as log;
ghost use Rattle.world_defs.specs.Row.{IsPartWay};

use crate::draining::drain;
use crate::happening::happen;
use fab_world::{Event, World};
use std::alloc::{AllocError, Global};

/// Clears the links: drains them, and then resets each channel that still holds a packet, by rising number. It
/// answers how many resets there were: none where the traffic was lawful. Running out of memory leaves a world that a
/// prefix of its events leads to.
pub fn clear(alloc: Global, w: &mut World) -> Result<u64, AllocError>
    ensures resets { IfOk result (λ resets. resets ≡ (log.clear w.old).value) }
    ensures after { OnOk result (w.new ≡ (log.clear w.old).world) }
    ensures lawful { IfOk result (λ resets. IsLawfulTraffic w.old → resets ≡ 0) }
    ensures few { IfOk result (λ resets. resets ≤ 8192) }
    ensures err { OnErr result (IsPartWay w.old (log.clear w.old).events w.new) }
    ensures idle { OnOk result (is_idle w.new.links ≡ true) }
    ensures cables { w.new.links.cables ≡ w.old.links.cables }
    ensures hosts { host_count w.new ≡ host_count w.old }
    ensures channels { length w.new.links.channels ≡ length w.old.links.channels }
    ensures adopted { w.new.adopted ≡ w.old.adopted }
{
    w.moment();
    w.reached();
    drain(alloc, w)?;
    reset_full(alloc, w)
}

/// Resets each channel that holds a packet, by rising number: how many. Those that are empty have nothing to reset.
pub(crate) fn reset_full(alloc: Global, w: &mut World) -> Result<u64, AllocError>
    ensures ok { IfOk result (λ resets. reset_count (steps w.old (resets_of w.old)) ≡ (resets, w.new)) }
    ensures few { IfOk result (λ resets. resets ≤ 8192) }
    ensures err { OnErr result (IsPartWay w.old (resets_of w.old) w.new) }
{
    let _few = w.channels();
    let mut resets = 0;
    let mut from = 0;
    while let Some(c) = w.next_full(from) {
        happen(alloc, w, Event::Reset(c))?;
        resets += 1;
        from = c + 1;
    }
    Ok(resets)
}
