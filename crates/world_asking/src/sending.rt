//! A packet that a host sends, and what comes of it.

ghost use Rattle.std.specs.Prelude.{◌≡◌, ◌≤◌, ◌<◌, ◌∷◌, [], length, true, false, Some, IfOk, IfSome, OnOk, OnErr};
ghost use Rattle.world_defs.specs.World.{host_count};
ghost use Rattle.world_defs.specs.Step.{step};
ghost use Rattle.world_defs.specs.declared.event.Event.TheVariants.{Ask};
ghost use Rattle.world_defs.specs.Asking.{is_used_up, probed_host, reply_in, returned_in};
ghost use Rattle.world_defs.specs.Logs as log;
ghost use Rattle.world_defs.specs.Row.{IsPartWay};
ghost use Rattle.fab_world.specs.Events.{IsHostOf};

use fab_world::{Effect, Event, Heard, Packet, Probed, World};
use net_defs::{End, Vertex, Walk};
use std::alloc::{AllocError, Global};
use world_drain::{Watch, drain_watching, happen, inject};

/// What came of a probe: whether no injection was left for it, its number, the host that heard it, and whether it
/// returned.
#[derive(Clone, Copy)]
pub(crate) struct SentProbe {
    pub(crate) used_up: bool,
    pub(crate) number: Option<u64>,
    pub(crate) probed: Option<u16>,
    pub(crate) returned: bool,
}

/// What came of a reply: whether no injection was left for it, and the host that replied, where the mapper heard it.
#[derive(Clone, Copy)]
pub(crate) struct SentReply {
    pub(crate) used_up: bool,
    pub(crate) replied: Option<u16>,
}

/// A host sends a probe of a walk, and all packets run out. The probe is carried to its end at once where it is alone
/// and unharmed; else it is staged and goes from channel to channel. Running out of memory leaves a world that a prefix
/// of the events leads to.
#[inline(always)]
pub(crate) fn send_probe(
    alloc: Global,
    w: &mut World,
    host: u16,
    walk: &Walk,
    looped: bool,
    packet: &mut Packet,
) -> Result<SentProbe, AllocError>
    requires there { IsHostOf w.old host }
    requires short { looped ≡ true → length walk.now ≤ 31 }
    ensures used { IfOk result (λ p.
        p.used_up ≡ (log.sends host (step w.old (Ask host walk.now looped)).1).value.used_up) }
    ensures number { IfOk result (λ p.
        p.number ≡ (log.sends host (step w.old (Ask host walk.now looped)).1).value.number) }
    ensures probed { IfOk result (λ p.
        p.probed ≡ probed_host (log.sends host (step w.old (Ask host walk.now looped)).1).value.effects) }
    ensures returned { IfOk result (λ p. p.returned ≡ returned_in host
        (log.sends host (step w.old (Ask host walk.now looped)).1).value.number
        (log.sends host (step w.old (Ask host walk.now looped)).1).value.effects) }
    ensures heard { IfOk result (λ p. IfSome p.probed (λ h. h < host_count w.old)) }
    ensures after { OnOk result (w.new ≡ (log.sends host (step w.old (Ask host walk.now looped)).1).world) }
    ensures err { OnErr result (IsPartWay w.old (Ask host walk.now looped
        ∷ (log.sends host (step w.old (Ask host walk.now looped)).1).events) w.new) }
    ensures hosts { host_count w.new ≡ host_count w.old }
{
    w.moment();
    let gone = w.probe(alloc, host, walk, looped, packet)?;
    match gone {
        Some(probed) => Ok(carried(host, &probed)),
        None => send_staged(alloc, w, host, walk, looped),
    }
}

// What came of a probe that was carried to its end at once.
#[inline(always)]
fn carried(host: u16, probed: &Probed) -> SentProbe
    ensures { result ≡ record {
      used_up = false;
      number = Some probed.now.number;
      probed = probed_host (probed.now.effect ∷ []);
      returned = returned_in host (Some probed.now.number) (probed.now.effect ∷ []);
    } }
{
    SentProbe {
        used_up: false,
        number: Some(probed.number),
        probed: prober_of(&probed.effect),
        returned: is_return(&probed.effect, host, probed.number),
    }
}

// The host that heard a probe.
fn prober_of(effect: &Effect) -> Option<u16>
    ensures { result ≡ probed_host (effect.now ∷ []) }
{
    match effect {
        Effect::Arrived(host, Heard::Probe) => Some(*host),
        _ => None,
    }
}

// Whether a host heard its own probe of a number.
fn is_return(effect: &Effect, host: u16, number: u64) -> bool
    ensures { result ≡ returned_in host (Some number) (effect.now ∷ []) }
{
    match effect {
        Effect::Arrived(at, Heard::Loop { number: own }) => *at == host && *own == number,
        _ => false,
    }
}

// A host stages a probe, puts it into its channel, and all packets run out.
fn send_staged(
    alloc: Global,
    w: &mut World,
    host: u16,
    walk: &Walk,
    looped: bool,
) -> Result<SentProbe, AllocError>
    requires there { IsHostOf w.old host }
    requires short { looped ≡ true → length walk.now ≤ 31 }
    ensures used { IfOk result (λ p.
        p.used_up ≡ (log.sends host (step w.old (Ask host walk.now looped)).1).value.used_up) }
    ensures number { IfOk result (λ p.
        p.number ≡ (log.sends host (step w.old (Ask host walk.now looped)).1).value.number) }
    ensures probed { IfOk result (λ p.
        p.probed ≡ probed_host (log.sends host (step w.old (Ask host walk.now looped)).1).value.effects) }
    ensures returned { IfOk result (λ p. p.returned ≡ returned_in host
        (log.sends host (step w.old (Ask host walk.now looped)).1).value.number
        (log.sends host (step w.old (Ask host walk.now looped)).1).value.effects) }
    ensures after { OnOk result (w.new ≡ (log.sends host (step w.old (Ask host walk.now looped)).1).world) }
    ensures err { OnErr result (IsPartWay w.old (Ask host walk.now looped
        ∷ (log.sends host (step w.old (Ask host walk.now looped)).1).events) w.new) }
    ensures hosts { host_count w.new ≡ host_count w.old }
{
    let walk = walk.copied(alloc)?;
    happen(alloc, w, Event::Ask { host, walk, looped })?;
    send_first(alloc, w, host)
}

// A host puts what it has to send first into its channel, and all packets run out.
#[tactic(auto, unfolding(world_defs::specs::Logs::sends))]
fn send_first(alloc: Global, w: &mut World, host: u16) -> Result<SentProbe, AllocError>
    requires there { IsHostOf w.old host }
    ensures used { IfOk result (λ p. p.used_up ≡ (log.sends host w.old).value.used_up) }
    ensures number { IfOk result (λ p. p.number ≡ (log.sends host w.old).value.number) }
    ensures probed { IfOk result (λ p. p.probed ≡ probed_host (log.sends host w.old).value.effects) }
    ensures returned { IfOk result (λ p. p.returned ≡ returned_in host
        (log.sends host w.old).value.number (log.sends host w.old).value.effects) }
    ensures after { OnOk result (w.new ≡ (log.sends host w.old).world) }
    ensures err { OnErr result (IsPartWay w.old (log.sends host w.old).events w.new) }
    ensures hosts { host_count w.new ≡ host_count w.old }
{
    let used_up = is_used_up(w, host);
    let number = inject(alloc, w, host)?;
    let watch = Watch {
        mapper: host,
        number,
        part: None,
    };
    let seen = drain_watching(alloc, w, watch)?;
    Ok(SentProbe {
        used_up,
        number,
        probed: seen.probed,
        returned: seen.returned,
    })
}

/// A host sends its reply to a mapper's probe of a number, and all packets run out. Running out of memory leaves a
/// world that a prefix of the events leads to.
#[tactic(auto, unfolding(world_defs::specs::Logs::sends))]
pub(crate) fn send_reply(
    alloc: Global,
    w: &mut World,
    host: u16,
    mapper: u16,
    number: Option<u64>,
) -> Result<SentReply, AllocError>
    requires there { IsHostOf w.old host }
    ensures used { IfOk result (λ r. r.used_up ≡ (log.sends host w.old).value.used_up) }
    ensures replied { IfOk result (λ r. r.replied ≡ reply_in mapper number (log.sends host w.old).value.effects) }
    ensures after { OnOk result (w.new ≡ (log.sends host w.old).world) }
    ensures err { OnErr result (IsPartWay w.old (log.sends host w.old).events w.new) }
    ensures hosts { host_count w.new ≡ host_count w.old }
{
    let used_up = is_used_up(w, host);
    let _own = inject(alloc, w, host)?;
    let watch = Watch {
        mapper,
        number,
        part: None,
    };
    let seen = drain_watching(alloc, w, watch)?;
    Ok(SentReply {
        used_up,
        replied: seen.replied,
    })
}

// Whether a host has a channel, but no injection is left.
fn is_used_up(w: &World, host: u16) -> bool
    requires { IsHostOf w.now host }
    ensures { result ≡ is_used_up w.now host }
{
    let port = End {
        v: Vertex::Host(host),
        p: 0,
    };
    w.channel_from(port).is_some() && w.injected() == u64::MAX
}
