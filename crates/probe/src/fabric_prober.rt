//! A prober that looks at a fabric and tells the truth.

ghost use Rattle.std.specs.Prelude.{◌≡◌, ◌<◌, ◌≤◌, length, IfOk, OnOk, OnErr, Ok};
ghost use Rattle.net_defs.specs.Network.{IsFabric};
ghost use Rattle.net_defs.specs.Route.{answer, answer_at};
ghost use Rattle.probe.specs.Drowning.{IsTrueOrDrowned};

use crate::prober::Prober;
use net_defs::{Answer, Place, Walk};
use port_graph::Fabric;
use std::alloc::AllocError;
use std::marker::Model;

/// Answers by a fabric in memory. None of its asks drowns, and its state never changes.
#[derive(Drop)]
pub struct FabricProber<'f> {
    fabric: &'f Fabric,
    host: u16,
}

impl<'f> Model for FabricProber<'f> {
    ghost use Rattle.std.specs.Prelude.{◌<◌, length};
    ghost use Rattle.net_defs.specs.Network.{IsFabric};
    ghost use Rattle.probe.specs.Drowning.{OverFabric};

    ghost Value = { OverFabric };

    ghost view = { λ p. record { fabric = p.fabric.now; host = p.host } };

    ghost invariant = { λ p. IsFabric p.fabric.now × (p.host < length p.fabric.now.hosts) };
}

impl<'f> FabricProber<'f> {
    /// A prober of this host.
    pub fn new(fabric: &'f Fabric, host: u16) -> FabricProber<'f>
        requires { host < length fabric.now.hosts }
        ensures { result ≡ record { fabric = fabric.now; host = host } }
    {
        let _count = fabric.hosts();
        FabricProber { fabric, host }
    }
}

impl Prober for FabricProber<'_> {
    ghost use Rattle.std.specs.Prelude.{◌≡◌};
    ghost use Rattle.probe.specs.Drowning.{OverFabric};

    ghost fabric = { λ p. p.fabric };

    ghost mapper = { λ p. p.host };

    ghost lost = { λ _. 0 };

    ghost State = { OverFabric };

    ghost state = { λ p. p };

    ghost asked = { λ before _ _ after. before ≡ after };

    ghost cut = { λ before _ after. before ≡ after };

    ghost ready = { λ _. Unit {0} };

    fn host(&self) -> u16 {
        self.host
    }

    fn drowned(&self) -> u64 {
        0
    }

    fn ask(&mut self, w: &Walk) -> Result<Answer, AllocError>
        ensures truth { IfOk result (λ a. IsTrueOrDrowned (answer self.old.fabric self.old.host w.now) 0 0 a) }
        ensures later { 0 ≤ 0 }
        ensures same_fabric { self.new.fabric ≡ self.old.fabric }
        ensures same_mapper { self.new.host ≡ self.old.host }
        ensures by_asking { IfOk result (λ _. self.old ≡ self.new) }
        ensures by_cutting { OnErr result (self.old ≡ self.new) }
        ensures stays_ready { OnOk result (Unit {0}) }
        ensures told { result ≡ Ok (answer self.old.fabric self.old.host w.now) }
        ensures unchanged { self.new ≡ self.old }
    {
        Ok(told(self.fabric.walk(self.host, w.turns())))
    }
}

/// What a mapper is told of a place.
pub(crate) fn told(place: Place) -> Answer
    ensures { result ≡ answer_at place }
{
    match place {
        Place::Host(host) => Answer::Host(host),
        Place::Switch(_, _) => Answer::Switch,
        Place::Nothing => Answer::Nothing,
    }
}
