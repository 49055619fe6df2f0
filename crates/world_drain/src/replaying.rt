//! Packets come back from limbo, each alone.

ghost use Rattle.std.specs.Prelude.{◌≡◌, ◌∷◌, [], ◌||◌, ◌+◌, nat_lt, IfOk, OnOk, OnErr};
ghost use Rattle.world_defs.specs.declared.event.Event.TheVariants.{Replay};
ghost use Rattle.world_defs.specs.Settle.{serials};
ghost use Rattle.world_defs.specs.Logs as log;
ghost use Rattle.world_defs.specs.Row.{IsPartWay};
ghost use Rattle.world_drain.specs.Settling.{capped};

use crate::clearing::clear;
use crate::happening::happens;
use fab_world::{Event, World};
use std::alloc::{AllocError, Global};

/// What a stretch of injections, replays and clears did.
#[derive(Clone, Copy)]
pub(crate) struct Told {
    /// Whether an injection or a replay wasn't idle.
    pub(crate) moved: bool,
    /// How many channels were reset; the count stays at its last value once there.
    pub(crate) resets: u64,
}

impl Told {
    /// What is reported of a stretch that another follows.
    pub(crate) fn then(self, next: Told) -> Told
        ensures moved { result.moved ≡ (self.moved || next.moved) }
        ensures resets { result.resets ≡ capped (self.resets + next.resets) }
    {
        Told {
            moved: self.moved || next.moved,
            resets: self.resets.saturating_add(next.resets),
        }
    }
}

/// A replay of each packet that stands in limbo now, by rising serial, with a clear after each. None comes to limbo
/// meanwhile. Running out of memory leaves a world that a prefix of their events leads to.
pub(crate) fn replay_all(alloc: Global, w: &mut World) -> Result<Told, AllocError>
    ensures moved { IfOk result (λ t. t.moved ≡ nat_lt 0 (log.replays (serials w.old) w.old).value.moves) }
    ensures resets { IfOk result (λ t. t.resets ≡ capped (log.replays (serials w.old) w.old).value.resets) }
    ensures after { OnOk result (w.new ≡ (log.replays (serials w.old) w.old).world) }
    ensures err { OnErr result (IsPartWay w.old (log.replays (serials w.old) w.old).events w.new) }
{
    w.moment();
    let mut told = Told {
        moved: false,
        resets: 0,
    };
    let mut from = 0;
    'replays: while let Some(serial) = w.next_limbo(from) {
        let one = replay(alloc, w, serial)?;
        told = told.then(one);
        from = serial + 1;
    }
    Ok(told)
}

// A replay of one packet in limbo, and a clear after it.
fn replay(alloc: Global, w: &mut World, serial: u64) -> Result<Told, AllocError>
    ensures moved { IfOk result (λ t. t.moved ≡ nat_lt 0 (log.cleared (Replay serial ∷ []) w.old).value.moves) }
    ensures resets { IfOk result (λ t. t.resets ≡ capped (log.cleared (Replay serial ∷ []) w.old).value.resets) }
    ensures after { OnOk result (w.new ≡ (log.cleared (Replay serial ∷ []) w.old).world) }
    ensures err { OnErr result (IsPartWay w.old (log.cleared (Replay serial ∷ []) w.old).events w.new) }
{
    let moved = happens(alloc, w, Event::Replay(serial))?;
    let resets = clear(alloc, w)?;
    Ok(Told { moved, resets })
}
