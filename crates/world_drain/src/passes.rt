//! A pass over all hosts and over limbo, and passes in a row.

ghost use Rattle.std.specs.Prelude.{◌≡◌, ◌||◌, not, nat_lt, map, IfOk, OnOk, OnErr};
ghost use Rattle.std.specs.List.{list_all};
ghost use Rattle.world_defs.specs.declared.event.Event.TheVariants.{Inject};
ghost use Rattle.world_defs.specs.World.{host_count, addresses, has_to_send};
ghost use Rattle.world_defs.specs.Step.{steps};
ghost use Rattle.world_defs.specs.Drain.{changes};
ghost use Rattle.world_defs.specs.Settle.{is_quiet, pass_bound};
ghost use Rattle.world_defs.specs.Logs as log;
ghost use Rattle.world_defs.specs.Row.{IsPartWay};
ghost use Rattle.world_drain.specs.Settling.{capped};

use crate::clearing::clear;
use crate::giving_up::give_up_all;
use crate::happening::happens;
use crate::replaying::{Told, replay_all};
use fab_world::{Event, World};
use std::alloc::{AllocError, Global};

/// Passes, at least one, up to one that leaves limbo empty and no host with anything to send that its cable takes, or
/// in which each injection and each replay was idle: how many channels were reset. That count stays at its last value
/// once there. Running out of memory leaves a world that a prefix of their events leads to.
pub(crate) fn passes(alloc: Global, w: &mut World) -> Result<u64, AllocError>
    ensures resets { IfOk result (λ n. n ≡ capped (log.round_passes (pass_bound w.old) w.old).value.resets) }
    ensures after { OnOk result (w.new ≡ (log.round_passes (pass_bound w.old) w.old).world) }
    ensures err { OnErr result (IsPartWay w.old (log.round_passes (pass_bound w.old) w.old).events w.new) }
{
    let mut resets: u64 = 0;
    'passing: loop {
        let once = pass(alloc, w)?;
        resets = resets.saturating_add(once.resets);
        if is_last(w, once) {
            return Ok(resets);
        }
    }
}

// Whether a pass that left this world was the last.
fn is_last(w: &World, once: Told) -> bool
    ensures { result ≡ (is_quiet w.now || not once.moved) }
{
    !once.moved || is_quiet(w)
}

// Whether nothing is in limbo, and no host has anything to send that its cable takes.
fn is_quiet(w: &World) -> bool
    ensures { result ≡ is_quiet w.now }
{
    w.next_limbo(0).is_none() && none_sends(w)
}

// Whether no host has anything to send that its cable takes. A silent one has nothing.
fn none_sends(w: &World) -> bool
    ensures { result ≡ list_all (λ h. not (has_to_send w.now h)) (addresses w.now) }
{
    let _few = w.hosts();
    let mut from = 0;
    while let Some(host) = w.next_busy(from) {
        if w.has_to_send(host) {
            return false;
        }
        from = host + 1;
    }
    true
}

// In a pass every host gives up what it staged, every host injects, by rising address, and a clear follows; then each
// packet in limbo is replayed, with a clear after it.
fn pass(alloc: Global, w: &mut World) -> Result<Told, AllocError>
    ensures moved { IfOk result (λ t. t.moved ≡ nat_lt 0 (log.round_pass w.old).value.moves) }
    ensures resets { IfOk result (λ t. t.resets ≡ capped (log.round_pass w.old).value.resets) }
    ensures after { OnOk result (w.new ≡ (log.round_pass w.old).world) }
    ensures err { OnErr result (IsPartWay w.old (log.round_pass w.old).events w.new) }
{
    give_up_all(alloc, w)?;
    let moved = inject_all(alloc, w)?;
    let resets = clear(alloc, w)?;
    let replayed = replay_all(alloc, w)?;
    Ok(Told { moved, resets }.then(replayed))
}

// An injection of each host, by rising address: whether one wasn't idle. Of a silent host it would be.
fn inject_all(alloc: Global, w: &mut World) -> Result<bool, AllocError>
    ensures moved { IfOk result (λ b. b ≡ nat_lt 0 (changes (steps w.old (map Inject (addresses w.old))).0)) }
    ensures after { OnOk result (w.new ≡ (steps w.old (map Inject (addresses w.old))).1) }
    ensures err { OnErr result (IsPartWay w.old (map Inject (addresses w.old)) w.new) }
{
    let _few = w.hosts();
    let mut moved = false;
    let mut from = 0;
    while let Some(host) = w.next_busy(from) {
        moved |= happens(alloc, w, Event::Inject(host))?;
        from = host + 1;
    }
    Ok(moved)
}
