//! One event.

ghost use Rattle.std.specs.Prelude.{◌≡◌, ◌≤◌, length, IfOk, OnOk, OnErr};
ghost use Rattle.world_defs.specs.Later.{OnlyPulled, IsLater};
ghost use Rattle.world_defs.specs.World.{host_count};
ghost use Rattle.world_defs.specs.declared.event.Event.TheVariants.{Inject};
ghost use Rattle.world_defs.specs.Drain.{changed};
ghost use Rattle.world_defs.specs.Step.{step};
ghost use Rattle.world_defs.specs.Asking.{number_of};
ghost use Rattle.fab_world.specs.Events.{IsGiven, IsHostOf};

use fab_world::{Effect, Event, World};
use std::alloc::{AllocError, Global};

/// One event whose effect doesn't matter. Running out of memory changes nothing.
pub fn happen(alloc: Global, w: &mut World, e: Event) -> Result<(), AllocError>
    requires { IsGiven w.old e }
    ensures after { OnOk result (w.new ≡ (step w.old e).1) }
    ensures err { OnErr result (w.new ≡ w.old) }
    ensures cables { IsLater w.old.links.cables w.new.links.cables }
    ensures hosts { host_count w.new ≡ host_count w.old }
    ensures channels { length w.old.links.channels ≤ length w.new.links.channels }
{
    w.step(alloc, e)?;
    Ok(())
}

/// An injection of a host: the number of the packet that entered its channel, where one did. Running out of memory
/// changes nothing.
pub fn inject(alloc: Global, w: &mut World, host: u16) -> Result<Option<u64>, AllocError>
    requires { IsHostOf w.old host }
    ensures number { IfOk result (λ n. n ≡ number_of (step w.old (Inject host)).0) }
    ensures after { OnOk result (w.new ≡ (step w.old (Inject host)).1) }
    ensures err { OnErr result (w.new ≡ w.old) }
    ensures cables { OnlyPulled w.old.links.cables w.new.links.cables }
    ensures hosts { host_count w.new ≡ host_count w.old }
{
    let effect = w.inject(alloc, host)?;
    Ok(number_of(&effect))
}

// The number under which a packet was injected.
fn number_of(effect: &Effect) -> Option<u64>
    ensures { result ≡ number_of effect.now }
{
    match effect {
        Effect::Injected(number) => Some(*number),
        _ => None,
    }
}

/// One event: whether it changed something.
pub(crate) fn happens(alloc: Global, w: &mut World, e: Event) -> Result<bool, AllocError>
    requires { IsGiven w.old e }
    ensures changed { IfOk result (λ b. b ≡ changed (step w.old e).0) }
    ensures after { OnOk result (w.new ≡ (step w.old e).1) }
    ensures err { OnErr result (w.new ≡ w.old) }
    ensures hosts { host_count w.new ≡ host_count w.old }
{
    let effect = w.step(alloc, e)?;
    Ok(has_changed(&effect))
}

// Whether an event with this effect changed something.
fn has_changed(effect: &Effect) -> bool
    ensures { result ≡ changed effect.now }
{
    match effect {
        Effect::Idle | Effect::Blocked(_) => false,
        _ => true,
    }
}
