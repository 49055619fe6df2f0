//! An installation of adopted routes on their hosts.

ghost use Rattle.std.specs.Prelude.{◌≡◌, ◌≤◌, ◌<◌, true, length, Some, option_map, is_some, IfOk, IfSome, OnOk, OnErr};
ghost use Rattle.std.specs.List.{AllByRecursion};
ghost use Rattle.world_defs.specs.Later.{OnlyPulled};
ghost use Rattle.world_defs.specs.Links.{is_idle};
ghost use Rattle.world_defs.specs.Table.{Adoption};
ghost use Rattle.world_defs.specs.World.{host_count, last_count};
ghost use Rattle.world_defs.specs.Log.{came_to};
ghost use Rattle.world_defs.specs.Logs as log;
ghost use Rattle.world_defs.specs.Row.{IsPartWay};
ghost use Rattle.install_laws.specs.Counts.{TellsCause};
ghost use Rattle.route_install.specs.Installing.{AreHosts, awaited};
ghost use Rattle.fab_world.specs.Events.{IsHostOf};
ghost use Rattle.table_installing.specs.Installing.{CanInstall, works_of, after_try, acked_among};

use crate::parts::part_try;
use fab_world::World;
use route_install::{Installer, PartAck, Work};
use std::alloc::{AllocError, Global};
use world_drain::give_up_all;

/// What an installation came to.
#[derive(Clone, Copy, Debug, PartialEq, Eq)]
pub struct Installed {
    /// How many hosts have acknowledged all parts of their tables, the adopter among them.
    pub acked: u16,
    /// How many hosts there are.
    pub of: u16,
}

/// Installs the adopted routes on the adopter and the hosts that they name. Every host gives up what it staged; then
/// each host is sent its parts, each up to so many times, and a part that isn't acknowledged ends the work for its
/// host. Where injections are left then, each host that isn't counted has a part each of whose tries met a planned
/// fault, or ended with a cable of its routes pulled. Running out of memory leaves a world that a prefix of its events
/// leads to.
pub fn install(
    alloc: Global,
    w: &mut World,
    hosts: &[u16],
    tries: u8,
) -> Result<Installed, AllocError>
    requires { CanInstall w.old hosts.now tries }
    ensures acked { IfOk result (λ x. IfSome w.old.adopted (λ a.
        x.acked ≡ (log.install a hosts.now tries w.old).value)) }
    ensures after { OnOk result (IfSome w.old.adopted (λ a.
        w.new ≡ (log.install a hosts.now tries w.old).world)) }
    ensures of { IfOk result (λ x. x.of ≡ length hosts.now) }
    ensures cause { IfOk result (λ x. IfSome w.old.adopted (λ a. w.new.injected < last_count
        → TellsCause a hosts.now tries x.acked w.old w.new)) }
    ensures err { OnErr result (IfSome w.old.adopted (λ a.
        IsPartWay w.old (log.install a hosts.now tries w.old).events w.new)) }
    ensures idle { OnOk result (is_idle w.new.links ≡ true) }
    ensures cables { OnlyPulled w.old.links.cables w.new.links.cables }
    ensures hosts { host_count w.new ≡ host_count w.old }
    ensures channels { length w.new.links.channels ≡ length w.old.links.channels }
    ensures adopted { w.new.adopted ≡ w.old.adopted }
{
    w.moment();
    w.reached();
    give_up_all(alloc, w)?;
    let acked = match w.adopter() {
        Some(mapper) => install_hosts(alloc, w, mapper, hosts, tries)?,
        None => 0,
    };
    Ok(Installed {
        acked,
        of: hosts.len() as u16,
    })
}

// The tables of these hosts, in order: how many of them have acknowledged all parts. Each try is of the part that the
// installer awaits.
fn install_hosts(
    alloc: Global,
    w: &mut World,
    mapper: u16,
    hosts: &[u16],
    tries: u8,
) -> Result<u16, AllocError>
    requires adopter { option_map (λ a. a.mapper) w.old.adopted ≡ Some mapper }
    requires there { IsHostOf w.old mapper }
    requires hosts { AllByRecursion (IsHostOf w.old) hosts.now }
    requires few { length hosts.now ≤ 128 }
    requires rise { AreHosts hosts.now }
    requires some_tries { 1 ≤ tries }
    requires few_tries { tries ≤ 8 }
    ensures acked { (a : Adoption) → w.old.adopted ≡ Some a
        → IfOk result (λ k. came_to (log.hosts a tries hosts.now w.old) ≡ (k, w.new)) }
    ensures err { (a : Adoption) → w.old.adopted ≡ Some a
        → OnErr result (IsPartWay w.old (log.hosts a tries hosts.now w.old).events w.new) }
    ensures hosts { host_count w.new ≡ host_count w.old }
{
    let works = works_for(alloc, w, hosts)?;
    let mut installer = Installer::of_works(works, tries);
    'serving: while let Some((dst, part)) = installer.next() {
        let epoch = part_try(alloc, w, mapper, dst, part)?;
        tell(&mut installer, dst, part, epoch);
    }
    Ok(acked_among(&installer, hosts))
}

// The work for these hosts.
fn works_for(alloc: Global, w: &World, hosts: &[u16]) -> Result<Vec<Work>, AllocError>
    ensures { IfOk result (λ works. works.items ≡ works_of w.now.adopted hosts.now) }
{
    let mut works = Vec::with_capacity(alloc, hosts.len())?;
    for host in hosts {
        let parts = w.part_count(*host);
        if 0 < parts {
            works.push(Work::new(*host, parts))?;
        }
    }
    Ok(works)
}

// The installer hears what came of a try of the awaited part: the acknowledgement of an epoch, or silence.
fn tell(installer: &mut Installer, dst: u16, part: u8, epoch: Option<u32>)
    requires { awaited installer.old ≡ Some (dst, part) }
    ensures { installer.new ≡ after_try installer.old dst part (is_some epoch) }
{
    match epoch {
        Some(epoch) => {
            let _ = installer.on_ack(PartAck {
                epoch,
                host: dst,
                part,
            });
        }
        None => installer.on_silence(),
    }
}

// How many of these hosts have acknowledged all parts.
fn acked_among(installer: &Installer, hosts: &[u16]) -> u16
    requires { length hosts.now ≤ 128 }
    ensures { result ≡ acked_among installer.now hosts.now }
{
    let mut count = 0;
    for host in hosts {
        if installer.acked(*host) {
            count += 1;
        }
    }
    count
}
