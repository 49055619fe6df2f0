//! A prober whose chosen asks drown, for tests.

ghost use Rattle.std.specs.Prelude.{◌≡◌, ◌<◌, ◌≤◌, length, nat_eq, IfOk, OnOk, OnErr, Ok};
ghost use Rattle.std.specs.List.{list_any};
ghost use Rattle.net_defs.specs.Route.{answer};
ghost use Rattle.fab_outer.specs.Fault.{one_more};
ghost use Rattle.probe.specs.Drowning.{IsTrueOrDrowned, next_answer, after_ask};

use crate::fabric_prober::told;
use crate::prober::Prober;
use net_defs::{Answer, Walk};
use port_graph::Fabric;
use std::alloc::AllocError;
use std::marker::Model;

/// Answers by a fabric in memory, but the asks of the given numbers, counted from 1, answer Nothing and are counted
/// as drowned.
#[derive(Drop)]
pub struct FakeProber<'f> {
    fabric: &'f Fabric,
    host: u16,
    drown: Vec<u32>,
    asks: u64,
    drowned: u64,
}

impl<'f> Model for FakeProber<'f> {
    ghost use Rattle.std.specs.Prelude.{◌<◌, length};
    ghost use Rattle.net_defs.specs.Network.{IsFabric};
    ghost use Rattle.probe.specs.Drowning.{Drowning};

    ghost Value = { Drowning };

    ghost view = { λ p. record {
      fabric = p.fabric.now;
      host = p.host;
      drown = p.drown.items;
      asks = p.asks;
      drowned = p.drowned;
    } };

    ghost invariant = { λ p. IsFabric p.fabric.now × (p.host < length p.fabric.now.hosts) };
}

impl<'f> FakeProber<'f> {
    /// A prober of this host. The first ask has number 1.
    pub fn new(fabric: &'f Fabric, host: u16, drown: Vec<u32>) -> FakeProber<'f>
        requires { host < length fabric.now.hosts }
        ensures { result ≡ record { fabric = fabric.now; host = host; drown = drown.items; asks = 0; drowned = 0 } }
    {
        let _count = fabric.hosts();
        FakeProber {
            fabric,
            host,
            drown,
            asks: 0,
            drowned: 0,
        }
    }
}

impl Prober for FakeProber<'_> {
    ghost use Rattle.std.specs.Prelude.{◌≡◌, ℕ};
    ghost use Rattle.fab_outer.specs.Fault.{one_more};

    ghost fabric = { λ p. p.fabric };

    ghost mapper = { λ p. p.host };

    ghost lost = { λ p. p.drowned };

    ghost State = { ℕ };

    ghost state = { λ p. p.asks };

    ghost asked = { λ before _ _ after. after ≡ one_more before };

    ghost cut = { λ before _ after. after ≡ before };

    ghost ready = { λ _. Unit {0} };

    fn host(&self) -> u16 {
        self.host
    }

    fn drowned(&self) -> u64 {
        self.drowned
    }

    fn ask(&mut self, w: &Walk) -> Result<Answer, AllocError>
        ensures truth { IfOk result (λ a. IsTrueOrDrowned
            (answer self.old.fabric self.old.host w.now) self.old.drowned self.new.drowned a) }
        ensures later { self.old.drowned ≤ self.new.drowned }
        ensures same_fabric { self.new.fabric ≡ self.old.fabric }
        ensures same_mapper { self.new.host ≡ self.old.host }
        ensures by_asking { IfOk result (λ _. self.new.asks ≡ one_more self.old.asks) }
        ensures by_cutting { OnErr result (self.new.asks ≡ self.old.asks) }
        ensures stays_ready { OnOk result (Unit {0}) }
        ensures told { result ≡ Ok (next_answer self.old w.now) }
        ensures counted { self.new ≡ after_ask self.old }
    {
        self.asks = self.asks.saturating_add(1);
        if is_among(&self.drown, self.asks) {
            self.drowned = self.drowned.saturating_add(1);
            return Ok(Answer::Nothing);
        }
        Ok(told(self.fabric.walk(self.host, w.turns())))
    }
}

// Whether the ask of this number drowns.
fn is_among(drown: &[u32], ask: u64) -> bool
    ensures { result ≡ list_any (λ number. nat_eq number ask) drown.now }
{
    drown.iter().any(|number| u64::from(*number) == ask)
}
