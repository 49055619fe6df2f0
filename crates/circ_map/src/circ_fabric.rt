//! A prober over a fabric in memory.

ghost use Rattle.std.specs.Prelude.{◌≡◌, ◌<◌, ◌≤◌, length, IfOk, Ok};
ghost use Rattle.net_defs.specs.Network.{IsFabric};
ghost use Rattle.net_defs.specs.Route.{answer_at};
ghost use Rattle.circ_defs.specs.Circuit.{circuit_answer};

use crate::prober::CircProber;
use circ_link::CircPlaces;
use net_defs::{Answer, Place, Walk};
use port_graph::Fabric;
use std::alloc::AllocError;
use std::marker::Model;

/// Answers by the circuit places of a fabric in memory. It takes no memory, and its answers never change: what it keeps
/// of the last ask only spares steps.
#[derive(Drop)]
pub struct CircFabric<'f> {
    places: CircPlaces<'f>,
}

impl<'f> Model for CircFabric<'f> {
    ghost use Rattle.std.specs.Prelude.{◌<◌, length};
    ghost use Rattle.net_defs.specs.Network.{IsFabric};
    ghost use Rattle.probe.specs.Drowning.{OverFabric};

    ghost Value = { OverFabric };

    ghost view = { λ p. record { fabric = p.places.fabric; host = p.places.host } };

    ghost invariant = { λ p. IsFabric p.places.fabric × (p.places.host < length p.places.fabric.hosts) };
}

impl<'f> CircFabric<'f> {
    /// A prober of this host.
    pub fn new(fabric: &'f Fabric, host: u16) -> CircFabric<'f>
        requires { host < length fabric.now.hosts }
        ensures { result ≡ record { fabric = fabric.now; host = host } }
    {
        let _count = fabric.hosts();
        CircFabric {
            places: CircPlaces::new(fabric, host),
        }
    }
}

impl CircProber for CircFabric<'_> {
    ghost fabric = { λ p. p.fabric };

    ghost mapper = { λ p. p.host };

    fn host(&self) -> u16 {
        self.places.host()
    }

    fn ask(&mut self, w: &Walk) -> Result<Answer, AllocError>
        ensures told { IfOk result (λ a. a ≡ circuit_answer self.old.fabric self.old.host w.now) }
        ensures same_fabric { self.new.fabric ≡ self.old.fabric }
        ensures same_mapper { self.new.host ≡ self.old.host }
        ensures exactly { result ≡ Ok (circuit_answer self.old.fabric self.old.host w.now) }
        ensures unchanged { self.new ≡ self.old }
    {
        Ok(told(self.places.place_of(w.turns())))
    }
}

// What a mapper is told of a place.
fn told(place: Place) -> Answer
    ensures { result ≡ answer_at place }
{
    match place {
        Place::Host(host) => Answer::Host(host),
        Place::Switch(_, _) => Answer::Switch,
        Place::Nothing => Answer::Nothing,
    }
}
