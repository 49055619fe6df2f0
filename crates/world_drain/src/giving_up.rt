//! Every host gives up what it staged.

ghost use Rattle.std.specs.Prelude.{◌≡◌, map, OnOk, OnErr};
ghost use Rattle.world_defs.specs.World.{host_count, addresses};
ghost use Rattle.world_defs.specs.declared.event.Event.TheVariants.{GiveUp};
ghost use Rattle.world_defs.specs.Step.{step};
ghost use Rattle.world_defs.specs.Asking.{all_given_up};
ghost use Rattle.world_defs.specs.Row.{IsPartWay};
ghost use Rattle.fab_world.specs.Events.{IsHostOf};

use crate::happening::happen;
use fab_world::{Event, World};
use std::alloc::{AllocError, Global};

/// Every host gives up what it staged, by rising address. Silent ones have staged nothing, and those that are silent or
/// at rest then are passed by from now on. Running out of memory leaves a world that a prefix of these events leads to.
pub fn give_up_all(alloc: Global, w: &mut World) -> Result<(), AllocError>
    ensures after { OnOk result (w.new ≡ all_given_up w.old) }
    ensures err { OnErr result (IsPartWay w.old (map GiveUp (addresses w.old)) w.new) }
    ensures cables { w.new.links.cables ≡ w.old.links.cables }
    ensures hosts { host_count w.new ≡ host_count w.old }
{
    let _few = w.hosts();
    let mut from = 0;
    while let Some(host) = w.next_busy(from) {
        give_up(alloc, w, host)?;
        from = host + 1;
    }
    Ok(())
}

// A host gives up what it staged, and is passed by from now on where it is silent or at rest then.
fn give_up(alloc: Global, w: &mut World, host: u16) -> Result<(), AllocError>
    requires { IsHostOf w.old host }
    ensures after { OnOk result (w.new ≡ (step w.old (GiveUp host)).1) }
    ensures err { OnErr result (w.new ≡ w.old) }
    ensures hosts { host_count w.new ≡ host_count w.old }
{
    give_up_staged(alloc, w, host)?;
    w.rest(host);
    Ok(())
}

// A host gives up what it staged. Where that is nothing, the event would change nothing.
fn give_up_staged(alloc: Global, w: &mut World, host: u16) -> Result<(), AllocError>
    requires { IsHostOf w.old host }
    ensures after { OnOk result (w.new ≡ (step w.old (GiveUp host)).1) }
    ensures err { OnErr result (w.new ≡ w.old) }
    ensures hosts { host_count w.new ≡ host_count w.old }
{
    if w.has_staged(host) {
        happen(alloc, w, Event::GiveUp(host))
    } else {
        Ok(())
    }
}
