//! A cable is pulled or plugged.

ghost use Rattle.std.specs.Prelude.{◌≡◌, ◌≤◌, ◌||◌, not, length, is_some, Ok, OnOk, OnErr};
ghost use Rattle.net_defs.specs.Network.{same_end};
ghost use Rattle.net_defs.specs.Refusal.{Refuses};
ghost use Rattle.world_defs.specs.Crossed.{leaving};
ghost use Rattle.world_defs.specs.Later.{OnlyPulled, IsLater};
ghost use Rattle.world_defs.specs.World.{host_count};
ghost use Rattle.world_defs.specs.Step.{step};
ghost use Rattle.world_defs.specs.declared.event.Event.TheVariants.{Pull, Plug};
ghost use Rattle.world_defs.specs.declared.effect.Effect.TheVariants.{Said};
ghost use Rattle.world_defs.specs.declared.effect.Said.TheVariants.{Done};
ghost use Rattle.fab_remap.specs.Remap.{effect_of, is_free, plug_refusal};

use crate::events::{happen, is_done};
use fab_world::{Event, Fabric, World};
use net_defs::End;
use std::alloc::{AllocError, Global};
use thiserror::Error;

// Two for each cable that may be named.
const MAX_CHANNELS: u16 = 8192;

/// Why two ports aren't joined.
#[derive(Clone, Copy, Debug, PartialEq, Eq, Error)]
pub enum PlugRefusal {
    /// A port has a cable already, the two are one, or one of them isn't there.
    #[error("a port is used")]
    PortUsed,
    /// As many cables were named as ever can be.
    #[error("all cables were named")]
    Full,
    /// Memory ran out for a cable that isn't refused.
    #[error("out of memory")]
    NoMemory,
}

/// [`World::step`] of [`Event::Pull`]: whether the port had a cable. It takes no memory.
pub fn pull(alloc: Global, w: &mut World, at: End) -> Result<bool, AllocError>
    ensures answer { result ≡ Ok (is_some (leaving w.old.links.cables at)) }
    ensures event { step w.old (Pull at) ≡ (effect_of (is_some (leaving w.old.links.cables at)), w.new) }
    ensures cables { OnlyPulled w.old.links.cables w.new.links.cables }
    ensures hosts { host_count w.new ≡ host_count w.old }
    ensures channels { length w.old.links.channels ≤ length w.new.links.channels }
    ensures adopted { w.new.adopted ≡ w.old.adopted }
{
    let effect = happen(alloc, w, Event::Pull(at));
    Ok(is_done(&effect))
}

/// [`World::step`] of [`Event::Plug`]. It refuses in this order: `PortUsed` where the fabric as it stands takes no
/// cable there, and `Full`. A refused plug changes nothing.
pub fn plug(alloc: Global, w: &mut World, a: End, b: End) -> Result<(), PlugRefusal>
    ensures event { OnOk result (step w.old (Plug a b) ≡ (Said Done, w.new)) }
    ensures refused { Refuses (plug_refusal w.old a b) PlugRefusal.NoMemory result }
    ensures unchanged { OnErr result (w.new ≡ w.old) }
    ensures cables { IsLater w.old.links.cables w.new.links.cables }
    ensures hosts { host_count w.new ≡ host_count w.old }
    ensures channels { length w.old.links.channels ≤ length w.new.links.channels }
    ensures adopted { w.new.adopted ≡ w.old.adopted }
{
    if let Some(refusal) = plug_refusal(w, a, b) {
        return Err(refusal);
    }
    let Ok(_effect) = w.step(alloc, Event::Plug(a, b)) else {
        return Err(PlugRefusal::NoMemory);
    };
    Ok(())
}

// Why two ports aren't joined.
fn plug_refusal(w: &World, a: End, b: End) -> Option<PlugRefusal>
    ensures { result ≡ plug_refusal w.now a b }
{
    if is_refused(w.fabric(), a, b) {
        Some(PlugRefusal::PortUsed)
    } else if w.channels() < MAX_CHANNELS {
        None
    } else {
        Some(PlugRefusal::Full)
    }
}

// Whether a fabric takes no cable between two ports: one isn't free, or they are one.
fn is_refused(f: &Fabric, a: End, b: End) -> bool
    ensures { result ≡ (not (is_free f.now a) || not (is_free f.now b) || same_end a b) }
{
    !is_free(f, a) || !is_free(f, b) || a == b
}

// Whether a port is there and has no cable.
fn is_free(f: &Fabric, e: End) -> bool
    ensures { result ≡ is_free f.now e }
{
    e.p < f.ports(e.v) && f.far(e.v, e.p).is_none()
}
