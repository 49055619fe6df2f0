//! Events that take no memory.

ghost use Rattle.std.specs.Prelude.{◌≡◌, ◌≤◌, length, false};
ghost use Rattle.world_defs.specs.Later.{IsLater};
ghost use Rattle.world_defs.specs.World.{host_count};
ghost use Rattle.world_defs.specs.Step.{step};
ghost use Rattle.fab_world.specs.Events.{IsGiven, takes_memory};
ghost use Rattle.fab_remap.specs.Remap.{is_done};

use fab_world::{Effect, Event, World};
use std::alloc::Global;
use world_defs::Said;

/// One event that takes no memory: its effect.
pub(crate) fn happen(alloc: Global, w: &mut World, e: Event) -> Effect
    requires given { IsGiven w.old e }
    requires free { takes_memory e ≡ false }
    ensures event { step w.old e ≡ (result, w.new) }
    ensures cables { IsLater w.old.links.cables w.new.links.cables }
    ensures hosts { host_count w.new ≡ host_count w.old }
    ensures channels { length w.old.links.channels ≤ length w.new.links.channels }
    ensures adopted { w.new.adopted ≡ w.old.adopted }
{
    w.step(alloc, e).unwrap()
}

/// Whether an event of a cable or of an epoch was possible, by its effect.
pub(crate) fn is_done(effect: &Effect) -> bool
    ensures { result ≡ is_done effect.now }
{
    matches!(effect, Effect::Said(Said::Done))
}
