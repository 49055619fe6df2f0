//! An ask of a mapper.

ghost use Rattle.std.specs.Prelude.{◌≡◌, ◌≤◌, length, IfOk, OnOk, OnErr};
ghost use Rattle.world_defs.specs.World.{host_count};
ghost use Rattle.world_defs.specs.Logs as log;
ghost use Rattle.world_defs.specs.Row.{IsPartWay};
ghost use Rattle.fab_world.specs.Events.{IsHostOf};

use crate::trying::{host_tries, loop_tries};
use fab_world::{Packet, World};
use net_defs::{Answer, Walk};
use std::alloc::{AllocError, Global};
use world_drain::give_up_all;

/// What an ask came to.
#[derive(Clone, Copy)]
pub(crate) struct Asked {
    pub(crate) answer: Answer,
    pub(crate) drowned: bool,
}

/// An ask of a mapper that was made after so many changes of cables: every host gives up what it staged; up to so many
/// host probes, to the first reply; without one up to so many loopback probes, to the first that returns. Running
/// out of memory leaves a world that a prefix of its events leads to.
#[tactic(auto, unfolding(world_defs::specs::Logs::ask))]
pub(crate) fn ask(
    alloc: Global,
    w: &mut World,
    made: u64,
    mapper: u16,
    tries: u8,
    walk: &Walk,
    packet: &mut Packet,
) -> Result<Asked, AllocError>
    requires there { IsHostOf w.old mapper }
    requires short { length walk.now ≤ 31 }
    ensures answer { IfOk result (λ a. a.answer ≡ (log.ask made mapper tries walk.now w.old).value.answer) }
    ensures drowned { IfOk result (λ a. a.drowned ≡ (log.ask made mapper tries walk.now w.old).value.drowned) }
    ensures after { OnOk result (w.new ≡ (log.ask made mapper tries walk.now w.old).world) }
    ensures err { OnErr result (IsPartWay w.old (log.ask made mapper tries walk.now w.old).events w.new) }
    ensures hosts { host_count w.new ≡ host_count w.old }
{
    give_up_all(alloc, w)?;
    let hosts = host_tries(alloc, w, mapper, walk, tries, packet)?;
    if let Some(host) = hosts.found {
        return Ok(Asked {
            answer: Answer::Host(host),
            drowned: false,
        });
    }
    let loops = loop_tries(alloc, w, mapper, walk, tries, packet)?;
    Ok(Asked {
        answer: if loops.found {
            Answer::Switch
        } else {
            Answer::Nothing
        },
        drowned: !loops.found && (hosts.harmed || made < w.changes() || loops.harmed),
    })
}
