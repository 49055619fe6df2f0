//! The mapper that asks over a world.

ghost use Rattle.std.specs.Prelude.{◌≡◌, ◌≤◌, ◌<◌, length, true, IfOk, OnOk, OnErr};
ghost use Rattle.net_defs.specs.Route.{answer};
ghost use Rattle.world_defs.specs.Links.{is_idle};
ghost use Rattle.world_defs.specs.History.{fabric_at};
ghost use Rattle.world_defs.specs.World.{host_count};
ghost use Rattle.probe.specs.Drowning.{IsTrueOrDrowned};
ghost use Rattle.fab_world.specs.Events.{IsHostOf};
ghost use Rattle.world_asking.specs.Prober.{IsAsked, IsCutAsk, after_ask, next_ask};

use crate::asking::ask;
use fab_world::{Packet, World};
use net_defs::{Answer, Walk};
use probe::Prober;
use std::alloc::{AllocError, Global};
use std::marker::Model;

/// A mapper that asks by probe packets over a world: each ask stands for events of that world. It may be asked while
/// no packet is on its way. Its answers are of the fabric as it stood when the mapper was made: a cable that is pulled
/// meanwhile only lets asks drown. An ask that runs out of memory leaves a world that a prefix of its events leads to,
/// and its count as it was.
///
/// It holds the world, and must be spent, by [`WorldProber::into_world`].
pub struct WorldProber {
    alloc: Global,
    world: World,
    made: u64,
    host: u16,
    tries: u8,
    drowned: u64,
    // The packet of each probe that is alone, one after another.
    packet: Packet,
}

impl Model for WorldProber {
    ghost use Rattle.world_asking.specs.Prober.{WorldAsking, IsAsking};

    ghost Value = { WorldAsking };

    ghost view = { λ p. record {
      world = p.world;
      made = p.made;
      host = p.host;
      tries = p.tries;
      drowned = p.drowned;
    } };

    ghost invariant = { λ p. IsAsking (record {
      world = p.world;
      made = p.made;
      host = p.host;
      tries = p.tries;
      drowned = p.drowned;
    }) };
}

impl WorldProber {
    /// A mapper at a host, which tries a probe of each kind 1 to 8 times. It asks about the fabric as it stands now. No
    /// ask has drowned.
    pub fn new(alloc: Global, world: World, host: u16, tries: u8) -> WorldProber
        requires there { IsHostOf world host }
        requires some { 1 ≤ tries }
        requires few { tries ≤ 8 }
        ensures { result ≡ record {
          world = world;
          made = world.links.cables.changes;
          host = host;
          tries = tries;
          drowned = 0;
        } }
    {
        world.moment();
        let made = world.changes();
        WorldProber {
            alloc,
            world,
            made,
            host,
            tries,
            drowned: 0,
            packet: Packet::unwritten(alloc),
        }
    }

    /// The world as it stands.
    pub fn into_world(self) -> World
        ensures { result ≡ self.world }
    {
        let WorldProber {
            alloc: _,
            world,
            made: _,
            host: _,
            tries: _,
            drowned: _,
            packet: _,
        } = self;
        world
    }
}

impl Prober for WorldProber {
    ghost use Rattle.std.specs.Prelude.{◌≡◌, true};
    ghost use Rattle.world_defs.specs.Links.{is_idle};
    ghost use Rattle.world_defs.specs.History.{fabric_at};
    ghost use Rattle.world_asking.specs.Prober.{WorldAsking, IsAsked, IsCutAsk};

    ghost fabric = { λ p. fabric_at p.world.links.cables p.made };

    ghost mapper = { λ p. p.host };

    ghost lost = { λ p. p.drowned };

    ghost State = { WorldAsking };

    ghost state = { λ p. p };

    ghost asked = { IsAsked };

    ghost cut = { IsCutAsk };

    ghost ready = { λ p. is_idle p.world.links ≡ true };

    fn host(&self) -> u16 {
        self.world.moment();
        self.host
    }

    fn drowned(&self) -> u64 {
        self.drowned
    }

    fn ask(&mut self, w: &Walk) -> Result<Answer, AllocError>
        requires short { length w.now ≤ 31 }
        requires is_ready { is_idle self.old.world.links ≡ true }
        ensures truth { IfOk result (λ a. IsTrueOrDrowned
            (answer (fabric_at self.old.world.links.cables self.old.made) self.old.host w.now)
            self.old.drowned self.new.drowned a) }
        ensures later { self.old.drowned ≤ self.new.drowned }
        ensures same_fabric { fabric_at self.new.world.links.cables self.new.made
            ≡ fabric_at self.old.world.links.cables self.old.made }
        ensures same_mapper { self.new.host ≡ self.old.host }
        ensures by_asking { IfOk result (λ a. IsAsked self.old w.now a self.new) }
        ensures by_cutting { OnErr result (IsCutAsk self.old w.now self.new) }
        ensures stays_ready { OnOk result (is_idle self.new.world.links ≡ true) }
    {
        self.world.moment();
        let _turns = w.turns();
        let asked = ask(
            self.alloc,
            &mut self.world,
            self.made,
            self.host,
            self.tries,
            w,
            &mut self.packet,
        )?;
        if asked.drowned {
            self.drowned = self.drowned.saturating_add(1);
        }
        Ok(asked.answer)
    }
}
