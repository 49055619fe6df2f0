//! An adoption of routes with their installation.

ghost use Rattle.std.specs.Prelude.{◌≡◌, ◌≤◌, ◌<◌, ◌⊎◌, ℕ, true, length, nat_eq, IfOk, IfSome, OnOk, OnErr};
ghost use Rattle.std.specs.List.{list_any};
ghost use Rattle.net_defs.specs.Refusal.{Refuses};
ghost use Rattle.world_defs.specs.Later.{OnlyPulled};
ghost use Rattle.world_defs.specs.Links.{is_idle};
ghost use Rattle.world_defs.specs.World.{fabric_of, host_count, last_count, standing_of, adoption_of, adopted_by};
ghost use Rattle.world_defs.specs.Logs as log;
ghost use Rattle.world_defs.specs.Row.{IsPartWay};
ghost use Rattle.install_laws.specs.Counts.{TellsCause};
ghost use Rattle.route_install.specs.Installing.{AreHosts};
ghost use Rattle.adopted_routes.specs.Adopting.{IsAdoptable, adopt_refusal, is_among};
ghost use Rattle.fab_world.specs.Events.{IsHostOf};

use crate::installing::{Installed, install};
use fab_world::{AdoptRefusal, RouteSet, World};
use std::alloc::Global;

/// [`World::adopt`] of a copy of the routes, and [`install`] on the adopter and the hosts that they name. A refusal is
/// exactly that of the adoption, and changes nothing. Running out of memory leaves the world as it was, or one that a
/// prefix of the installation's events leads to from the adoption.
pub fn adopt_and_install(
    alloc: Global,
    w: &mut World,
    mapper: u16,
    set: &RouteSet,
    hosts: &[u16],
    tries: u8,
) -> Result<Installed, AdoptRefusal>
    requires there { IsHostOf w.old mapper }
    requires adoptable { IsAdoptable (fabric_of w.old) mapper set.now }
    requires idle { is_idle w.old.links ≡ true }
    requires rise { AreHosts hosts.now }
    requires named { (h : ℕ) → list_any (nat_eq h) hosts.now ≡ is_among mapper set.now h }
    requires some { 1 ≤ tries }
    requires few { tries ≤ 8 }
    ensures acked { IfOk result (λ x. x.acked
        ≡ (log.install (adoption_of w.old mapper set.now) hosts.now tries (adopted_by w.old mapper set.now)).value) }
    ensures after { OnOk result (w.new
        ≡ (log.install (adoption_of w.old mapper set.now) hosts.now tries (adopted_by w.old mapper set.now)).world) }
    ensures of { IfOk result (λ x. x.of ≡ length hosts.now) }
    ensures cause { IfOk result (λ x. w.new.injected < last_count
        → TellsCause (adoption_of w.old mapper set.now) hosts.now tries x.acked
        (adopted_by w.old mapper set.now) w.new) }
    ensures refused { Refuses (adopt_refusal (standing_of w.old) set.now w.old.adopted) AdoptRefusal.NoMemory result }
    ensures unchanged { IfSome (adopt_refusal (standing_of w.old) set.now w.old.adopted) (λ why. w.new ≡ w.old) }
    ensures err { OnErr result ((w.new ≡ w.old) ⊎ IsPartWay (adopted_by w.old mapper set.now)
        (log.install (adoption_of w.old mapper set.now) hosts.now tries
        (adopted_by w.old mapper set.now)).events w.new) }
    ensures idle { OnOk result (is_idle w.new.links ≡ true) }
    ensures cables { OnOk result (OnlyPulled (adopted_by w.old mapper set.now).links.cables w.new.links.cables) }
    ensures hosts { host_count w.new ≡ host_count w.old }
{
    w.reached();
    if let Some(refusal) = w.adopt_refusal(set) {
        return Err(refusal);
    }
    let Ok(copy) = set.copied(alloc) else {
        return Err(AdoptRefusal::NoMemory);
    };
    match w.adopt(alloc, mapper, copy) {
        Ok(()) => match install(alloc, w, hosts, tries) {
            Ok(installed) => Ok(installed),
            Err(_) => Err(AdoptRefusal::NoMemory),
        },
        Err((_, refusal)) => Err(refusal),
    }
}
