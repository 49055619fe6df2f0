//! The session.

ghost use Rattle.std.specs.Prelude.{◌≡◌, option_map, IfOk, IfErr, OnOk, OnErr};
ghost use Rattle.world_defs.specs.World.{fabric_of};
ghost use Rattle.run_defs.specs.Session.{new_session};
ghost use Rattle.fab_script.specs.Ranges.{IsCommandOf};
ghost use Rattle.promise_laws.specs.CutShort.{IsCutShort};
ghost use Rattle.promise_laws.specs.Duos.{IsDuoLeft};
ghost use Rattle.world_commands.specs.Cut.{HidesNoRefusal};
ghost use Rattle.run_session.specs.Kept.{GoesOn};
ghost use Rattle.run_session.specs.Obeyed.{IsObeyed, IsObeyedIn};

use crate::held::Held;
use crate::walking::walk_links;
use fab_report::Printed;
use fab_world::{Fabric, World};
use gm_restart::Duo;
use run_defs::Command;
use std::alloc::{AllocError, Global};
use std::marker::Model;
use world_commands::OutOfMemory;

/// What a run holds from command to command: its world, the last map and the last routes, and the two hosts that
/// restart, once they have begun.
///
/// A walk's packet takes links of its own, which are empty between commands, so that it meets no other packet; they are
/// made anew before a walk where a cable was pulled or plugged. It must be spent, by [`Session::end`].
pub struct Session {
    held: Box<Held>,
}

impl Model for Session {
    ghost use Rattle.run_defs.specs.Session.{SessionState};

    ghost Value = { SessionState };

    ghost view = { λ s. s.held.value };
}

impl Session {
    /// The session of a fabric before its first command.
    pub fn new(alloc: Global, fabric: Fabric) -> Result<Session, AllocError>
        ensures new { IfOk result (λ s. s ≡ new_session fabric) }
        ensures fabric { IfOk result (λ s. fabric_of s.world ≡ fabric) }
    {
        let world = World::new(alloc, fabric)?;
        match walk_links(alloc, &world) {
            Ok(links) => Session::boxed(alloc, Held::new(alloc, world, links)),
            Err(wanting) => {
                world.end();
                Err(wanting)
            }
        }
    }

    // The session that holds this.
    fn boxed(alloc: Global, held: Held) -> Result<Session, AllocError>
        ensures { IfOk result (λ s. s ≡ held) }
    {
        match Box::new(alloc, held) {
            Ok(held) => Ok(Session { held }),
            Err(wanting) => {
                wanting.value.end();
                Err(AllocError)
            }
        }
    }

    /// Does a command over its fabric: the session then, and the text of what it printed. Where memory runs out, the
    /// session comes back with a world that a prefix of the command's acts leads to, and with the last map and the last
    /// routes as they were; the two hosts that restart are as they were, or new, where the command is their first
    /// event, or as it leaves them. A command `circuit` leaves the session as it is. Hosts, switches and the fabric of
    /// the past stay, whatever a command did to cables. Where memory ran out, [`Session::perform`] says.
    pub fn exec(
        self,
        alloc: Global,
        c: &Command,
    ) -> Result<(Session, Vec<u8>), (Session, AllocError)>
        requires command { IsCommandOf (fabric_of self.world) c.now }
        ensures ok { IfOk result (λ r. IsObeyedIn self c.now r.0 r.1.items) }
        ensures cables { IfOk result (λ r. GoesOn self.world r.0.world) }
        ensures err { IfErr result (λ r. GoesOn self.world r.0.world) }
        ensures kept_map { IfErr result (λ r. r.0.last_map ≡ self.last_map) }
        ensures kept_routes { IfErr result (λ r. r.0.last_routes ≡ self.last_routes) }
        ensures cut { IfErr result (λ r. IsCutShort self c.now r.0.world) }
        ensures duo { IfErr result (λ r. IsDuoLeft self c.now r.0.duo) }
    {
        let mut session = self;
        let mut printed = Printed::nothing(alloc);
        match session.perform(alloc, c, &mut printed) {
            Ok(()) => Ok((session, printed.into_text())),
            Err(_) => Err((session, AllocError)),
        }
    }

    /// Does a command as [`Session::exec`] does, and prints it in place of what was printed before: its text, and what
    /// a summary shows of it. So one room serves for the texts of a whole run. It says where memory ran out: a refused
    /// command runs out of it in its line alone, unless it is of the two hosts that restart.
    pub fn perform(
        &mut self,
        alloc: Global,
        c: &Command,
        printed: &mut Printed,
    ) -> Result<(), OutOfMemory>
        requires command { IsCommandOf (fabric_of self.old.world) c.now }
        ensures ok { OnOk result (IsObeyed self.old c.now self.new printed.new) }
        ensures cables { GoesOn self.old.world self.new.world }
        ensures kept_map { OnErr result (self.new.last_map ≡ self.old.last_map) }
        ensures kept_routes { OnErr result (self.new.last_routes ≡ self.old.last_routes) }
        ensures cut { OnErr result (IsCutShort self.old c.now self.new.world) }
        ensures unrefused { IfErr result (HidesNoRefusal self.old c.now self.new.world) }
        ensures duo { OnErr result (IsDuoLeft self.old c.now self.new.duo) }
    {
        self.held.obey(alloc, c, printed)
    }

    /// Its world.
    pub fn world(&self) -> &World
        ensures { result.now ≡ self.now.world }
    {
        self.held.world()
    }

    /// The two hosts that restart, once they have begun.
    pub fn duo(&self) -> Option<&Duo>
        ensures { option_map (λ d. d.now) result ≡ self.now.duo }
    {
        self.held.duo()
    }

    /// Spends it. Takes no memory.
    pub fn end(self) {
        let Session { held } = self;
        Box::into_inner(held).end();
    }
}
