//! The tries of an ask: each a probe alone, injected and drained.

ghost use Rattle.std.specs.Prelude.{◌≡◌, ◌≤◌, ◌&&◌, length, true, false, is_some, None, IfOk, OnOk, OnErr};
ghost use Rattle.world_defs.specs.World.{host_count};
ghost use Rattle.world_defs.specs.Logs as log;
ghost use Rattle.world_defs.specs.Row.{IsPartWay};
ghost use Rattle.fab_world.specs.Events.{IsHostOf};

use crate::sending::{send_probe, send_reply};
use fab_world::{Packet, World};
use net_defs::Walk;
use std::alloc::{AllocError, Global};

/// What tries of a host probe came to: the host that replied, and whether a fault met each of them.
#[derive(Clone, Copy)]
pub(crate) struct HostTry {
    pub(crate) found: Option<u16>,
    pub(crate) harmed: bool,
}

/// What tries of a loopback probe came to: whether it returned, and whether a fault met each of them.
#[derive(Clone, Copy)]
pub(crate) struct LoopTry {
    pub(crate) found: bool,
    pub(crate) harmed: bool,
}

/// At most so many tries of a host probe, up to the first that is replied to. Running out of memory leaves a world that
/// a prefix of their events leads to.
pub(crate) fn host_tries(
    alloc: Global,
    w: &mut World,
    mapper: u16,
    walk: &Walk,
    tries: u8,
    packet: &mut Packet,
) -> Result<HostTry, AllocError>
    requires there { IsHostOf w.old mapper }
    ensures found { IfOk result (λ t. t.found
        ≡ (log.tries is_some None (log.host_try mapper walk.now) tries w.old).value.found) }
    ensures harmed { IfOk result (λ t. t.harmed
        ≡ (log.tries is_some None (log.host_try mapper walk.now) tries w.old).value.harmed) }
    ensures after { OnOk result (w.new ≡ (log.tries is_some None (log.host_try mapper walk.now) tries w.old).world) }
    ensures err { OnErr result (IsPartWay w.old
        (log.tries is_some None (log.host_try mapper walk.now) tries w.old).events w.new) }
    ensures hosts { host_count w.new ≡ host_count w.old }
{
    let mut harmed = true;
    let mut left = tries;
    'trying: while left > 0 {
        let t = host_try(alloc, w, mapper, walk, packet)?;
        harmed = both(harmed, t.harmed);
        if t.found.is_some() {
            return Ok(HostTry {
                found: t.found,
                harmed,
            });
        }
        left -= 1;
    }
    Ok(HostTry {
        found: None,
        harmed,
    })
}

/// At most so many tries of a loopback probe, up to the first that returns. Running out of memory leaves a world that a
/// prefix of their events leads to.
pub(crate) fn loop_tries(
    alloc: Global,
    w: &mut World,
    mapper: u16,
    walk: &Walk,
    tries: u8,
    packet: &mut Packet,
) -> Result<LoopTry, AllocError>
    requires there { IsHostOf w.old mapper }
    requires short { length walk.now ≤ 31 }
    ensures found { IfOk result (λ t. t.found
        ≡ (log.tries (λ b. b) false (log.loop_try mapper walk.now) tries w.old).value.found) }
    ensures harmed { IfOk result (λ t. t.harmed
        ≡ (log.tries (λ b. b) false (log.loop_try mapper walk.now) tries w.old).value.harmed) }
    ensures after { OnOk result (w.new ≡ (log.tries (λ b. b) false (log.loop_try mapper walk.now) tries w.old).world) }
    ensures err { OnErr result (IsPartWay w.old
        (log.tries (λ b. b) false (log.loop_try mapper walk.now) tries w.old).events w.new) }
    ensures hosts { host_count w.new ≡ host_count w.old }
{
    let mut harmed = true;
    let mut left = tries;
    'trying: while left > 0 {
        let t = loop_try(alloc, w, mapper, walk, packet)?;
        harmed = both(harmed, t.harmed);
        if t.found {
            return Ok(LoopTry {
                found: true,
                harmed,
            });
        }
        left -= 1;
    }
    Ok(LoopTry {
        found: false,
        harmed,
    })
}

// One try of a host probe: the probe alone, and then the reply of the host that heard it.
#[tactic(auto, unfolding(world_defs::specs::Logs::host_try))]
fn host_try(
    alloc: Global,
    w: &mut World,
    mapper: u16,
    walk: &Walk,
    packet: &mut Packet,
) -> Result<HostTry, AllocError>
    requires there { IsHostOf w.old mapper }
    ensures found { IfOk result (λ t. t.found ≡ (log.host_try mapper walk.now w.old).value.found) }
    ensures harmed { IfOk result (λ t. t.harmed ≡ (log.host_try mapper walk.now w.old).value.harmed) }
    ensures after { OnOk result (w.new ≡ (log.host_try mapper walk.now w.old).world) }
    ensures err { OnErr result (IsPartWay w.old (log.host_try mapper walk.now w.old).events w.new) }
    ensures hosts { host_count w.new ≡ host_count w.old }
{
    let before = w.harmed();
    let probe = send_probe(alloc, w, mapper, walk, false, packet)?;
    let Some(host) = probe.probed else {
        return Ok(HostTry {
            found: None,
            harmed: probe.used_up || before < w.harmed(),
        });
    };
    let reply = send_reply(alloc, w, host, mapper, probe.number)?;
    Ok(HostTry {
        found: reply.replied,
        harmed: probe.used_up || reply.used_up || before < w.harmed(),
    })
}

// One try of a loopback probe.
#[tactic(auto, unfolding(world_defs::specs::Logs::loop_try))]
fn loop_try(
    alloc: Global,
    w: &mut World,
    mapper: u16,
    walk: &Walk,
    packet: &mut Packet,
) -> Result<LoopTry, AllocError>
    requires there { IsHostOf w.old mapper }
    requires short { length walk.now ≤ 31 }
    ensures found { IfOk result (λ t. t.found ≡ (log.loop_try mapper walk.now w.old).value.found) }
    ensures harmed { IfOk result (λ t. t.harmed ≡ (log.loop_try mapper walk.now w.old).value.harmed) }
    ensures after { OnOk result (w.new ≡ (log.loop_try mapper walk.now w.old).world) }
    ensures err { OnErr result (IsPartWay w.old (log.loop_try mapper walk.now w.old).events w.new) }
    ensures hosts { host_count w.new ≡ host_count w.old }
{
    let before = w.harmed();
    let probe = send_probe(alloc, w, mapper, walk, true, packet)?;
    Ok(LoopTry {
        found: probe.returned,
        harmed: probe.used_up || before < w.harmed(),
    })
}

// Whether both hold.
const fn both(a: bool, b: bool) -> bool
    ensures { result ≡ (a && b) }
{
    a && b
}
