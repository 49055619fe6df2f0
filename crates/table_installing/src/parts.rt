//! One try of a part of a host's table.

ghost use Rattle.std.specs.Prelude.{◌≡◌, is_some, IfOk, OnOk, OnErr};
ghost use Rattle.world_defs.specs.World.{host_count};
ghost use Rattle.world_defs.specs.Logs as log;
ghost use Rattle.world_defs.specs.Row.{IsPartWay};
ghost use Rattle.fab_world.specs.Events.{IsHostOf};
ghost use Rattle.world_drain.specs.Watch.{seen_in};

use fab_world::{Event, World};
use std::alloc::{AllocError, Global};
use world_drain::{AwaitedPart, Seen, Watch, drain_watching, happen};

/// One try of a part: the part alone, and then the acknowledgement of its host. The epoch of that, where the mapper
/// hears it. Running out of memory leaves a world that a prefix of its events leads to.
#[tactic(auto, unfolding(world_defs::specs::Logs::part_try))]
pub(crate) fn part_try(
    alloc: Global,
    w: &mut World,
    mapper: u16,
    dst: u16,
    part: u8,
) -> Result<Option<u32>, AllocError>
    requires there { IsHostOf w.old mapper }
    requires dst { IsHostOf w.old dst }
    ensures found { IfOk result (λ epoch. is_some epoch ≡ (log.part_try mapper dst part w.old).value.found) }
    ensures after { OnOk result (w.new ≡ (log.part_try mapper dst part w.old).world) }
    ensures err { OnErr result (IsPartWay w.old (log.part_try mapper dst part w.old).events w.new) }
    ensures hosts { host_count w.new ≡ host_count w.old }
{
    happen(alloc, w, Event::Part { dst, part })?;
    let watch = Watch {
        mapper,
        number: None,
        part: Some(AwaitedPart { dst, part }),
    };
    let sent = send(alloc, w, mapper, watch)?;
    if !sent.came || !w.has_part_ack(dst) {
        return Ok(None);
    }
    let answer = send(alloc, w, dst, watch)?;
    Ok(answer.acknowledged)
}

// A host puts what it has to send first into its channel, and the links are drained.
#[tactic(auto, unfolding(world_defs::specs::Logs::sends))]
fn send(alloc: Global, w: &mut World, host: u16, watch: Watch) -> Result<Seen, AllocError>
    requires { IsHostOf w.old host }
    ensures seen { IfOk result (λ s. s ≡ seen_in watch (log.sends host w.old).value.effects) }
    ensures after { OnOk result (w.new ≡ (log.sends host w.old).world) }
    ensures err { OnErr result (IsPartWay w.old (log.sends host w.old).events w.new) }
    ensures hosts { host_count w.new ≡ host_count w.old }
{
    happen(alloc, w, Event::Inject(host))?;
    drain_watching(alloc, w, watch)
}
