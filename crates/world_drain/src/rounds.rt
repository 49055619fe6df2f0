//! A settle: rounds, each of which sends again what isn't acknowledged.

ghost use Rattle.std.specs.Prelude.{◌≡◌, ◌≤◌, ◌<◌, ◌+◌, ◌||◌, true, not, nat_eq, nat_lt, min, length};
ghost use Rattle.std.specs.Prelude.{IfOk, OnOk, OnErr};
ghost use Rattle.world_defs.specs.Later.{OnlyPulled};
ghost use Rattle.world_defs.specs.Links.{is_idle};
ghost use Rattle.world_defs.specs.World.{host_count, last_count};
ghost use Rattle.world_defs.specs.Step.{after_all};
ghost use Rattle.world_defs.specs.Settle.{unacknowledged_in, expiries_of, expiries, round_bound};
ghost use Rattle.world_defs.specs.Settled.{IsSettled};
ghost use Rattle.world_defs.specs.Logs as log;
ghost use Rattle.world_defs.specs.Row.{IsPartWay};
ghost use Rattle.lawful_laws.specs.Resets.{ClearsBeginLawful};
ghost use Rattle.message_laws.specs.Got.{IsAllGot};
ghost use Rattle.fab_world.specs.Events.{IsHostOf};
ghost use Rattle.world_drain.specs.Rounds.{AreRounds};
ghost use Rattle.world_drain.specs.Settling.{capped};

use crate::clearing::clear;
use crate::happening::happen;
use crate::passes::passes;
use fab_world::{Event, World};
use std::alloc::{AllocError, Global};

/// What a settle came to. The count of resets stays at its last value once there.
#[derive(Clone, Copy, Debug, PartialEq, Eq)]
pub struct Settled {
    /// How many rounds it took.
    pub rounds: u64,
    /// How many channels were reset, by its first clear and in its rounds.
    pub resets: u64,
    /// How many fragments aren't acknowledged after it.
    pub unacked: u64,
}

/// Settles a world: a clear, and then rounds, at least one, up to one that leaves nothing unacknowledged or that
/// helps nothing. It answers at most one round more than there were unacknowledged fragments and planned faults, and
/// no resets where the traffic was lawful as each of its clears began. Where injections are left, the world is settled
/// then; and where it answers that nothing is unacknowledged, all that was sent is got. Running out of memory leaves a
/// world that a prefix of its events leads to.
pub fn settle(alloc: Global, w: &mut World) -> Result<Settled, AllocError>
    ensures after { OnOk result (w.new ≡ (log.settle w.old).world) }
    ensures rounds { IfOk result (λ s. s.rounds ≡ (log.settle w.old).value.rounds) }
    ensures few_rounds { IfOk result (λ s. (1 ≤ s.rounds)
        × (s.rounds ≤ unacknowledged_in w.old + length w.old.plan + 1)) }
    ensures resets { IfOk result (λ s. s.resets ≡ min (log.settle w.old).value.resets last_count) }
    ensures lawful { IfOk result (λ s. ClearsBeginLawful w.old (log.settle w.old).events → s.resets ≡ 0) }
    ensures unacked { IfOk result (λ s. s.unacked ≡ unacknowledged_in w.new) }
    ensures settled { OnOk result (w.new.injected < last_count → IsSettled w.new) }
    ensures got { IfOk result (λ s. s.unacked ≡ 0 → IsAllGot w.new) }
    ensures err { OnErr result (IsPartWay w.old (log.settle w.old).events w.new) }
    ensures idle { OnOk result (is_idle w.new.links ≡ true) }
    ensures cables { OnlyPulled w.old.links.cables w.new.links.cables }
    ensures hosts { host_count w.new ≡ host_count w.old }
    ensures channels { length w.new.links.channels ≡ length w.old.links.channels }
    ensures adopted { w.new.adopted ≡ w.old.adopted }
{
    w.moment();
    w.reached();
    let first = clear(alloc, w)?;
    let rest = all_rounds(alloc, w)?;
    Ok(Settled {
        rounds: rest.rounds,
        resets: first.saturating_add(rest.resets),
        unacked: rest.unacked,
    })
}

// How far a world has come: how many fragments aren't acknowledged, and how many planned faults struck.
#[derive(Clone, Copy)]
struct Progress {
    unacked: u64,
    struck: u64,
}

// Rounds up to the last.
fn all_rounds(alloc: Global, w: &mut World) -> Result<Settled, AllocError>
    ensures ok { IfOk result (λ s. AreRounds w.old w.new s.rounds s.resets) }
    ensures unacked { IfOk result (λ s. s.unacked ≡ unacknowledged_in w.new) }
    ensures err { OnErr result (IsPartWay w.old (log.rounds (round_bound w.old) w.old).events w.new) }
{
    w.moment();
    let _planned = w.planned();
    let mut rounds: u64 = 0;
    let mut resets: u64 = 0;
    let mut before = progress_of(w);
    'settling: loop {
        let once = round(alloc, w)?;
        rounds += 1;
        resets = resets.saturating_add(once);
        let now = progress_of(w);
        if is_last(before, now) {
            let unacked = now.unacked;
            return Ok(Settled {
                rounds,
                resets,
                unacked,
            });
        }
        before = now;
    }
}

// How far a world has come.
fn progress_of(w: &World) -> Progress
    ensures unacked { result.unacked ≡ unacknowledged_in w.now }
    ensures few { result.unacked ≤ 140737488322560 }
    ensures struck { result.struck ≡ w.now.struck }
{
    Progress {
        unacked: w.unacked(),
        struck: w.struck(),
    }
}

// Whether a round that led so far was the last: nothing is left, or it didn't help, since nothing more was acknowledged
// and no planned fault struck. Nothing is offered meanwhile, so that what isn't acknowledged gets less exactly where a
// base rises.
fn is_last(before: Progress, now: Progress) -> bool
    ensures { result ≡ (nat_eq now.unacked 0 || not
        (nat_lt now.unacked before.unacked || nat_lt before.struck now.struck)) }
{
    let helped = now.unacked < before.unacked || before.struck < now.struck;
    now.unacked == 0 || !helped
}

// A round: an expiry for each pair with something unacknowledged, and then passes. How many channels were reset.
fn round(alloc: Global, w: &mut World) -> Result<u64, AllocError>
    ensures resets { IfOk result (λ resets. resets ≡ capped (log.round w.old).value.resets) }
    ensures after { OnOk result (w.new ≡ (log.round w.old).world) }
    ensures err { OnErr result (IsPartWay w.old (log.round w.old).events w.new) }
{
    expire_all(alloc, w)?;
    passes(alloc, w)
}

// An expiry for each pair with something unacknowledged, by host and then by peer. A host at rest has none.
fn expire_all(alloc: Global, w: &mut World) -> Result<(), AllocError>
    ensures after { OnOk result (w.new ≡ after_all w.old (expiries w.old)) }
    ensures err { OnErr result (IsPartWay w.old (expiries w.old) w.new) }
{
    let _few = w.hosts();
    let mut from = 0;
    while let Some(host) = w.next_awake(from) {
        expire_host(alloc, w, host)?;
        from = host + 1;
    }
    Ok(())
}

// An expiry for each peer to which something of a host isn't acknowledged.
fn expire_host(alloc: Global, w: &mut World, host: u16) -> Result<(), AllocError>
    requires { IsHostOf w.old host }
    ensures after { OnOk result (w.new ≡ after_all w.old (expiries_of w.old host)) }
    ensures err { OnErr result (IsPartWay w.old (expiries_of w.old host) w.new) }
    ensures hosts { host_count w.new ≡ host_count w.old }
{
    let _few = w.hosts();
    let mut from = 0;
    while let Some(peer) = w.next_unacked(host, from) {
        happen(alloc, w, Event::Expire { host, peer })?;
        from = peer + 1;
    }
    Ok(())
}
