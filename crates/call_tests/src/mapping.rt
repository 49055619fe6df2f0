//! A journal that a prober answers, some of whose asks drown, and its map.

ghost use Rattle.std.specs.Prelude.{◌<◌, length};
ghost use Rattle.replicate_merge.specs.Table.{IsTrueOfOne, StandsFor};

use crate::fabrics::{RING, TWO_HOSTS, fabric_of};
use fabric_map::FabricMap;
use map_quotient::quotient;
use mapper::{MapEnd, map};
use port_graph::Fabric;
use probe::{FakeProber, Journal, Prober};
use replicate_merge::Classes;
use std::alloc::Global;

// How many asks drowned, how the map ended, and how many vertices and switches it has.
type Told = (u64, MapEnd, usize, usize);

// What is said of the map of a fabric from host 0 to a depth of 8, where these asks drown.
fn told(alloc: Global, fabric: &Fabric, drown: Vec<u32>) -> Option<Told> {
    if fabric.hosts() == 0 {
        return None;
    }
    let mut prober = FakeProber::new(fabric, 0, drown);
    match map(alloc, &mut prober, 8) {
        Ok(made) => Some((
            prober.drowned(),
            made.end,
            made.map.vertices().len(),
            made.map.switches(),
        )),
        Err(_) => None,
    }
}

// The same over the fabric of a text, where one ask drowns.
fn told_but_one(alloc: Global, text: &str, ask: u32) -> Option<Told> {
    let drown = [ask].to_vec(alloc).ok()?;
    match fabric_of(alloc, text) {
        Some(fabric) => told(alloc, &fabric, drown),
        None => None,
    }
}

#[test]
fn a_host_whose_probe_drowns_is_not_in_the_map(rt: HostRuntime) {
    assert!(rt; told_but_one(rt.alloc(), TWO_HOSTS, 19) == Some((1, MapEnd::Closed, 2, 1)));
}

// Whether the map of a journal, over classes that are made at once, is this one.
fn is_map_of(alloc: Global, journal: &Journal, map: &FabricMap) -> Option<bool>
    requires { IsTrueOfOne journal.now.host journal.now.entries }
{
    if journal.entries().len() > 1000 {
        return None;
    }
    match Classes::from_journal(alloc, journal) {
        Ok(classes) => is_map_by(alloc, journal, &classes, map),
        Err(_) => None,
    }
}

// The same over its classes.
fn is_map_by(alloc: Global, journal: &Journal, classes: &Classes, map: &FabricMap) -> Option<bool>
    requires stands { StandsFor journal.now.host journal.now.entries classes.now }
    requires true_of_one { IsTrueOfOne journal.now.host journal.now.entries }
    requires few { length journal.now.entries < 4294967295 }
{
    match quotient(alloc, journal, classes) {
        Ok(made) => Some(made.vertices() == map.vertices() && made.cables() == map.cables()),
        Err(_) => None,
    }
}

// Whether the map of a fabric from host 0 is that of its journal over classes that are made at once.
fn is_map_at_once(alloc: Global, fabric: &Fabric) -> Option<bool> {
    if fabric.hosts() == 0 {
        return None;
    }
    let mut prober = FakeProber::new(fabric, 0, Vec::new(alloc));
    match map(alloc, &mut prober, 8) {
        Ok(made) => is_map_of(alloc, &made.journal, &made.map),
        Err(_) => None,
    }
}

// The same over the fabric of a text.
fn is_map_at_once_of(alloc: Global, text: &str) -> Option<bool> {
    match fabric_of(alloc, text) {
        Some(fabric) => is_map_at_once(alloc, &fabric),
        None => None,
    }
}

#[test]
fn a_journal_has_the_map_that_grew_with_it(rt: HostRuntime) {
    assert!(rt; is_map_at_once_of(rt.alloc(), RING) == Some(true));
}
