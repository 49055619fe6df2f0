//! Many events in a row: all packets run out.

ghost use Rattle.std.specs.Prelude.{◌≡◌, ◌<◌, ◌≤◌, ◌⊎◌, ◌∷◌, [], true, length, IfOk, IfSome, OnOk, OnErr};
ghost use Rattle.world_defs.specs.Links.{is_idle};
ghost use Rattle.world_defs.specs.Hops.{total_hops, is_stuck};
ghost use Rattle.world_defs.specs.Traffic.{IsLawfulTraffic};
ghost use Rattle.world_defs.specs.World.{host_count};
ghost use Rattle.world_defs.specs.declared.event.Event.TheVariants.{Advance};
ghost use Rattle.world_defs.specs.Step.{step};
ghost use Rattle.world_defs.specs.Drain.{changes};
ghost use Rattle.world_defs.specs.Logs as log;
ghost use Rattle.world_defs.specs.Row.{IsPartWay};
ghost use Rattle.world_drain.specs.Watch.{seen_in};
ghost use Rattle.world_drain.specs.Part.{IsDrainedTo};

use crate::advancing::drain_by_passes;
use crate::seen::{Seen, Watch};
use fab_world::World;
use std::alloc::{AllocError, Global};

/// Advances packets until none moves any more: how many advances changed something, at most the hops that the packets
/// had left. Each packet that is left then waits for a channel that is taken; none is left where the traffic was
/// lawful. Running out of memory leaves a world that a prefix of the drain's events leads to.
pub fn drain(alloc: Global, w: &mut World) -> Result<u64, AllocError>
    ensures ok { IfOk result (λ n. n ≡ changes (log.drain w.old).value) }
    ensures few { IfOk result (λ n. n ≤ total_hops w.old.links) }
    ensures after { OnOk result (w.new ≡ (log.drain w.old).world) }
    ensures still { OnOk result ((is_idle w.new.links ≡ true) ⊎ (is_stuck w.new.links ≡ true)) }
    ensures lawful { OnOk result (IsLawfulTraffic w.old → is_idle w.new.links ≡ true) }
    ensures err { OnErr result (IsPartWay w.old (log.drain w.old).events w.new) }
{
    let watch = Watch {
        mapper: 0,
        number: None,
        part: None,
    };
    let seen = drain_watching(alloc, w, watch)?;
    Ok(seen.changes)
}

/// A drain, with what a mapper sees of it: it leaves what [`drain`] does. Running out of memory leaves a world that a
/// prefix of its events leads to. It stands in its callers, to which what was seen isn't handed over.
#[inline(always)]
pub fn drain_watching(alloc: Global, w: &mut World, watch: Watch) -> Result<Seen, AllocError>
    ensures seen { IfOk result (λ s. s ≡ seen_in watch (log.drain w.old).value) }
    ensures heard { IfOk result (λ s. IfSome s.probed (λ h. h < host_count w.old)) }
    ensures after { OnOk result (w.new ≡ (log.drain w.old).world) }
    ensures still { OnOk result ((is_idle w.new.links ≡ true) ⊎ (is_stuck w.new.links ≡ true)) }
    ensures lawful { OnOk result (IsLawfulTraffic w.old → is_idle w.new.links ≡ true) }
    ensures err { OnErr result (IsPartWay w.old (log.drain w.old).events w.new) }
    ensures cables { w.new.links.cables ≡ w.old.links.cables }
    ensures hosts { host_count w.new ≡ host_count w.old }
{
    w.moment();
    w.reached();
    drain_parts(alloc, w, &watch)
}

// A packet that is alone runs out, and then what is left is drained.
#[inline(always)]
fn drain_parts(alloc: Global, w: &mut World, watch: &Watch) -> Result<Seen, AllocError>
    ensures seen { IfOk result (λ s. s ≡ seen_in watch.now (log.drain w.old).value) }
    ensures after { OnOk result (w.new ≡ (log.drain w.old).world) }
    ensures err { OnErr result (IsPartWay w.old (log.drain w.old).events w.new) }
{
    let first = run_out(alloc, w, watch)?;
    if w.links_idle() {
        return Ok(first);
    }
    let rest = drain_by_passes(alloc, w, watch)?;
    Ok(first.then(rest))
}

// A packet that is alone in the links leaves them: its hops at once, and then the advance by which it leaves. Where
// they hold more, or none, nothing happens yet.
#[inline(always)]
fn run_out(alloc: Global, w: &mut World, watch: &Watch) -> Result<Seen, AllocError>
    ensures part { IfOk result (IsDrainedTo watch.now w.old w.new) }
    ensures few { IfOk result (λ s. s.changes ≤ 1108) }
    ensures err { OnErr result (IsPartWay w.old (log.drain w.old).events w.new) }
{
    match w.lone() {
        Some(c) => {
            let run = w.run(c);
            let last = advance_whole(alloc, w, watch, run.at)?;
            Ok(last.behind(u64::from(run.hops)))
        }
        None => Ok(watch.nothing()),
    }
}

// The advance by which a packet leaves.
#[inline(always)]
fn advance_whole(alloc: Global, w: &mut World, watch: &Watch, c: u16) -> Result<Seen, AllocError>
    requires there { c < length w.old.links.channels }
    ensures seen { IfOk result (λ s. s ≡ seen_in watch.now ((step w.old (Advance c)).0 ∷ [])) }
    ensures after { OnOk result (w.new ≡ (step w.old (Advance c)).1) }
    ensures err { OnErr result (w.new ≡ w.old) }
{
    let effect = w.advance(alloc, c)?;
    Ok(watch.see(&effect))
}
