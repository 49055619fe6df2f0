//! One event of the two hosts that restart, and the text of what it did.

ghost use Rattle.std.specs.Prelude.{◌≡◌, None, Some, IfOk, OnOk, OnErr};
ghost use Rattle.duo_defs.specs.Step.{IsFair, step};
ghost use Rattle.run_defs.specs.Duos.{begun};
ghost use Rattle.world_commands.specs.Duos.{IsDuoDone, IsDuoCut};

use fab_report::Printed;
use fab_world::Fabric;
use gm_restart::{Duo, DuoEffect, DuoEvent};
use std::alloc::{AllocError, Global};

/// One event of the two hosts that restart, which begin with their first. Nothing happens in the fabric, whose names no
/// line of theirs has. Where memory runs out, they are as they were, or new, or as the event leaves them.
#[tactic(auto, using(crate::proofs::Duos::event_done, crate::proofs::Duos::cut_done, crate::proofs::Duos::cut_begun, crate::proofs::Duos::cut_nothing))]
pub fn duo(
    alloc: Global,
    f: &Fabric,
    hosts: &mut Option<Duo>,
    e: DuoEvent,
    printed: &mut Printed,
) -> Result<(), AllocError>
    requires fair { IsFair e }
    ensures done { OnOk result (IsDuoDone f.now e hosts.old hosts.new printed.new) }
    ensures err { OnErr result (IsDuoCut e hosts.old hosts.new) }
{
    begin(alloc, hosts)?;
    let effect = happen(alloc, hosts, e)?;
    printed.put_duo(&effect, f)
}

// Lets them begin, where they haven't.
fn begin(alloc: Global, hosts: &mut Option<Duo>) -> Result<(), AllocError>
    ensures ok { OnOk result (hosts.new ≡ Some (begun hosts.old)) }
    ensures err { OnErr result (hosts.new ≡ hosts.old) }
{
    if hosts.is_some() {
        return Ok(());
    }
    begin_new(alloc, hosts)
}

// Lets them begin. It is no part of its caller's frame, which each of their events pays for.
#[inline(never)]
fn begin_new(alloc: Global, hosts: &mut Option<Duo>) -> Result<(), AllocError>
    ensures ok { OnOk result (hosts.new ≡ Some (begun None)) }
    ensures err { OnErr result (hosts.new ≡ hosts.old) }
{
    end_duo(alloc, hosts.replace(Duo::new(alloc)?));
    Ok(())
}

// One event, once they have begun.
fn happen(alloc: Global, hosts: &mut Option<Duo>, e: DuoEvent) -> Result<DuoEffect, AllocError>
    requires begun { hosts.old ≡ Some (begun hosts.old) }
    requires fair { IsFair e }
    ensures begun { hosts.new ≡ Some (begun hosts.new) }
    ensures ok { IfOk result (λ effect. step (begun hosts.old) e ≡ (effect, begun hosts.new)) }
    ensures err { OnErr result (hosts.new ≡ hosts.old) }
{
    let Some(duo) = &mut *hosts else {
        unreachable!()
    };
    duo.step(alloc, e)
}

/// Spends them, if they have begun. Takes no memory.
pub fn end_duo(alloc: Global, hosts: Option<Duo>) {
    if let Some(duo) = hosts {
        duo.end(alloc);
    }
}
