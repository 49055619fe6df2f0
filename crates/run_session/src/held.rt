//! What a session holds, behind its box.

ghost use Rattle.std.specs.Prelude.{◌≡◌, true, Option, Some, None, option_map, IfErr, OnOk, OnErr};
ghost use Rattle.world_defs.specs.Links.{is_idle};
ghost use Rattle.world_defs.specs.World.{fabric_of};
ghost use Rattle.run_defs.specs.Duos.{beside, IsOther};
ghost use Rattle.run_defs.specs.Session.{LastRoutes};
ghost use Rattle.run_defs.specs.declared.command.Command.{Command};
ghost use Rattle.fab_script.specs.Ranges.{IsDuoOf, IsCommandOf};
ghost use Rattle.promise_laws.specs.CutShort.{IsCutShort};
ghost use Rattle.promise_laws.specs.Duos.{IsDuoLeft};
ghost use Rattle.world_commands.specs.Cut.{HidesNoRefusal};
ghost use Rattle.world_commands.specs.Done.{session_of};
ghost use Rattle.world_commands.specs.Duos.{IsDuoDone, IsDuoCut};
ghost use Rattle.run_session.specs.Holding.{world_in, AreWalkLinks};
ghost use Rattle.run_session.specs.Kept.{IsKept, IsLastMap, GoesOn};
ghost use Rattle.run_session.specs.Obeyed.{IsObeyed};
ghost use Rattle.run_session.specs.Told.{map_of};

use crate::commands::obey_here;
use crate::last::{LastFound, LastMade};
use crate::mapping::{MapOrder, map, map_ordered};
use crate::walking::WalkLinks;
use fab_report::Printed;
use fab_world::World;
use gm_restart::{Duo, DuoEvent};
use run_defs::Command;
use std::alloc::Global;
use std::marker::Model;
use world_commands::{OutOfMemory, duo, end_duo};

/// The world, the links of walks, the last map, the last routes, and the two hosts that restart, once they have begun.
///
/// The world stands in a slot, which is empty only while a map is made: its mapper takes the world by value.
pub(crate) struct Held {
    alloc: Global,
    world: Option<World>,
    links: WalkLinks,
    last_map: Option<LastMade>,
    last_routes: Option<LastFound>,
    duo: Option<Duo>,
}

impl Model for Held {
    ghost use Rattle.std.specs.Prelude.{◌≡◌, Some};
    ghost use Rattle.run_defs.specs.Duos.{beside};
    ghost use Rattle.run_defs.specs.Session.{SessionState};
    ghost use Rattle.world_commands.specs.Done.{session_of};
    ghost use Rattle.run_session.specs.Holding.{world_in, AreWalkLinks};
    ghost use Rattle.run_session.specs.Kept.{IsKept};

    ghost Value = { SessionState };

    ghost view = { λ h. beside (session_of (world_in h.world) h.last_map h.last_routes) h.duo };

    ghost invariant = { λ h. IsKept (session_of (world_in h.world) h.last_map h.last_routes)
        × AreWalkLinks (world_in h.world).links.cables h.links × (h.world ≡ Some (world_in h.world)) };
}

impl Held {
    /// A world with links of its fabric, and neither a map nor routes.
    #[tactic(auto, using(crate::proofs::Keeping::none_kept))]
    pub(crate) fn new(alloc: Global, world: World, links: WalkLinks) -> Held
        requires { AreWalkLinks world.links.cables links }
        ensures { result ≡ session_of world None None }
    {
        Held {
            alloc,
            world: Some(world),
            links,
            last_map: None,
            last_routes: None,
            duo: None,
        }
    }

    /// Does a command. Where memory runs out, the world is one that a prefix of the command's acts leads to, and the
    /// last map and the last routes are as they were.
    pub(crate) fn obey(
        &mut self,
        alloc: Global,
        c: &Command,
        printed: &mut Printed,
    ) -> Result<(), OutOfMemory>
        requires command { IsCommandOf (fabric_of self.old.world) c.now }
        ensures obeyed { OnOk result (IsObeyed self.old c.now self.new printed.new) }
        ensures cables { GoesOn self.old.world self.new.world }
        ensures kept_map { OnErr result (self.new.last_map ≡ self.old.last_map) }
        ensures kept_routes { OnErr result (self.new.last_routes ≡ self.old.last_routes) }
        ensures cut { OnErr result (IsCutShort self.old c.now self.new.world) }
        ensures unrefused { IfErr result (HidesNoRefusal self.old c.now self.new.world) }
        ensures duo { OnErr result (IsDuoLeft self.old c.now self.new.duo) }
    {
        match c {
            Command::Duo(e) => self.obey_duo(alloc, *e, printed),
            _ => self.obey_other(alloc, c, printed),
        }
    }

    // Does a command that is none of the two hosts that restart: these stay.
    #[tactic(auto, using(crate::proofs::Beside::beside_obeyed, crate::proofs::Beside::beside_cut))]
    fn obey_other(
        &mut self,
        alloc: Global,
        c: &Command,
        printed: &mut Printed,
    ) -> Result<(), OutOfMemory>
        requires command { IsCommandOf (fabric_of self.old.world) c.now }
        requires other { IsOther c.now }
        ensures obeyed { OnOk result (IsObeyed self.old c.now self.new printed.new) }
        ensures cables { GoesOn self.old.world self.new.world }
        ensures kept_map { OnErr result (self.new.last_map ≡ self.old.last_map) }
        ensures kept_routes { OnErr result (self.new.last_routes ≡ self.old.last_routes) }
        ensures cut { OnErr result (IsCutShort self.old c.now self.new.world) }
        ensures unrefused { IfErr result (HidesNoRefusal self.old c.now self.new.world) }
        ensures duo { self.new.duo ≡ self.old.duo }
    {
        obey_parts(
            alloc,
            &mut self.world,
            &mut self.links,
            &mut self.last_map,
            &mut self.last_routes,
            c,
            printed,
        )
    }

    // Does one event of the two hosts that restart: all else stays.
    #[tactic(auto, using(crate::proofs::Beside::duo_obeyed, crate::proofs::Beside::duo_left))]
    fn obey_duo(
        &mut self,
        alloc: Global,
        e: DuoEvent,
        printed: &mut Printed,
    ) -> Result<(), OutOfMemory>
        requires event { IsDuoOf e }
        ensures obeyed { OnOk result (IsObeyed self.old (Command.Duo e) self.new printed.new) }
        ensures rest { self.new ≡ beside self.old self.new.duo }
        ensures duo { OnErr result (IsDuoLeft self.old (Command.Duo e) self.new.duo) }
        ensures doing { IfErr result (λ e. e ≡ OutOfMemory.InDoing) }
    {
        duo_text(alloc, &self.world, &mut self.duo, e, printed)
    }

    /// The two hosts that restart, once they have begun.
    pub(crate) fn duo(&self) -> Option<&Duo>
        ensures { option_map (λ d. d.now) result ≡ self.now.duo }
    {
        self.duo.as_ref()
    }

    /// Its world.
    pub(crate) fn world(&self) -> &World
        ensures { result.now ≡ self.now.world }
    {
        match &self.world {
            Some(world) => world,
            None => unreachable!(),
        }
    }

    /// Spends it. Takes no memory.
    pub(crate) fn end(self) {
        let Held {
            alloc,
            world,
            links,
            last_map,
            last_routes,
            duo,
        } = self;
        end_duo(alloc, duo);
        end_kept(links, last_map, last_routes);
        end_slot(world);
    }
}

// One event of the two hosts that restart, in the names of a slot's fabric.
#[tactic(auto, using(crate::proofs::Beside::event_is_fair))]
fn duo_text(
    alloc: Global,
    slot: &Option<World>,
    hosts: &mut Option<Duo>,
    e: DuoEvent,
    printed: &mut Printed,
) -> Result<(), OutOfMemory>
    requires world { slot.now ≡ Some (world_in slot.now) }
    requires event { IsDuoOf e }
    ensures done { OnOk result (IsDuoDone (fabric_of (world_in slot.now)) e hosts.old hosts.new printed.new) }
    ensures err { OnErr result (IsDuoCut e hosts.old hosts.new) }
    ensures doing { IfErr result (λ e. e ≡ OutOfMemory.InDoing) }
{
    match slot {
        Some(world) => match duo(alloc, world.fabric(), hosts, e, printed) {
            Ok(()) => Ok(()),
            Err(_) => Err(OutOfMemory::InDoing),
        },
        None => unreachable!(),
    }
}

// Does a command of the fabric over what a session holds, whose invariant it keeps.
fn obey_parts(
    alloc: Global,
    slot: &mut Option<World>,
    links: &mut WalkLinks,
    last_map: &mut Option<LastMade>,
    last_routes: &mut Option<LastFound>,
    c: &Command,
    printed: &mut Printed,
) -> Result<(), OutOfMemory>
    requires world { slot.old ≡ Some (world_in slot.old) }
    requires kept { IsKept (session_of (world_in slot.old) last_map.old last_routes.old) }
    requires links { AreWalkLinks (world_in slot.old).links.cables links.old }
    requires command { IsCommandOf (fabric_of (world_in slot.old)) c.now }
    requires other { IsOther c.now }
    ensures world { slot.new ≡ Some (world_in slot.new) }
    ensures kept { IsKept (session_of (world_in slot.new) last_map.new last_routes.new) }
    ensures links { AreWalkLinks (world_in slot.new).links.cables links.new }
    ensures obeyed { OnOk result (IsObeyed (session_of (world_in slot.old) last_map.old last_routes.old) c.now
        (session_of (world_in slot.new) last_map.new last_routes.new) printed.new) }
    ensures cables { GoesOn (world_in slot.old) (world_in slot.new) }
    ensures kept_map { OnErr result (last_map.new ≡ last_map.old) }
    ensures kept_routes { OnErr result (last_routes.new ≡ last_routes.old) }
    ensures cut { OnErr result (IsCutShort (session_of (world_in slot.old) last_map.old last_routes.old) c.now
        (world_in slot.new)) }
    ensures unrefused { IfErr result (HidesNoRefusal (session_of (world_in slot.old) last_map.old last_routes.old) c.now
        (world_in slot.new)) }
{
    let Some(world) = &mut *slot else {
        unreachable!()
    };
    match map_ordered(world, c) {
        Some(order) => map_slot(alloc, slot, last_map, order, printed),
        None => obey_here(alloc, world, links, last_map, last_routes, c, printed),
    }
}

// Ends what a session keeps beside its world.
fn end_kept(_links: WalkLinks, _last_map: Option<LastMade>, _last_routes: Option<LastFound>) {}

// Ends the world of a slot, if there is one.
fn end_slot(slot: Option<World>) {
    if let Some(world) = slot {
        world.end();
    }
}

// Maps from a host of an idle world, which leaves its slot for that and comes back. It is no part of its caller's
// frame, which the other commands pay for.
#[inline(never)]
fn map_slot(
    alloc: Global,
    slot: &mut Option<World>,
    last_map: &mut Option<LastMade>,
    order: MapOrder,
    printed: &mut Printed,
) -> Result<(), OutOfMemory>
    requires world { slot.old ≡ Some (world_in slot.old) }
    requires idle { is_idle (world_in slot.old).links ≡ true }
    requires order { IsCommandOf (fabric_of (world_in slot.old)) (map_of order) }
    requires kept { IsLastMap (world_in slot.old).links.cables last_map.old }
    ensures world { slot.new ≡ Some (world_in slot.new) }
    ensures obeyed { OnOk result ((found : Option LastRoutes)
        → IsObeyed (session_of (world_in slot.old) last_map.old found) (map_of order)
        (session_of (world_in slot.new) last_map.new found) printed.new) }
    ensures kept { IsLastMap (world_in slot.new).links.cables last_map.new }
    ensures cables { GoesOn (world_in slot.old) (world_in slot.new) }
    ensures err { OnErr result (last_map.new ≡ last_map.old) }
    ensures cut { OnErr result ((found : Option LastRoutes)
        → IsCutShort (session_of (world_in slot.old) last_map.old found) (map_of order) (world_in slot.new)) }
    ensures doing { IfErr result (λ e. e ≡ OutOfMemory.InDoing) }
{
    let Some(world) = slot.take() else {
        unreachable!()
    };
    let (world, kept) = map(alloc, world, last_map, order, printed);
    end_slot(slot.replace(world));
    kept
}
