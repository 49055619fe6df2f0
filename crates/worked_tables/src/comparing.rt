//! Classes compared, after each entry of a journal, with the plain closure and with classes made at once.

ghost use Rattle.std.specs.Prelude.{◌<◌, [], length};
ghost use Rattle.replicate_merge.specs.Table.{IsTrueOfOne, StandsFor};

use crate::at_once::are_those_at_once;
use crate::plain::{Pair, are_the_same, replicates};
use crate::prefix::put;
use crate::seen::{ClassedNode, joined, nodes_of};
use crate::so_far::SoFar;
use mapper::grow;
use port_graph::Fabric;
use probe::{Entry, FabricProber, Journal};
use replicate_merge::Classes;
use std::alloc::{AllocError, Global};

// The most entries of a journal that is compared.
const MOST: usize = 1000;

/// How a journal's classes compare.
#[derive(Clone, Copy)]
pub(crate) struct Comparison {
    /// How many entries the journal has.
    pub(crate) asks: usize,
    /// After how many of them the classes are those of the plain closure.
    pub(crate) agreed: usize,
    /// After how many of them they are those of the journal so far, made at once.
    pub(crate) at_once: usize,
    /// How many nodes there are at the end.
    pub(crate) nodes: usize,
    /// How many pairs of them are of one class.
    pub(crate) pairs: usize,
    /// How many of them are of a class with an expanded member.
    pub(crate) expanded: usize,
}

/// Compares the classes of the journal that grows from host 0 to a depth, after each of its entries; none where there
/// is no such journal, or it has too many.
pub(crate) fn compared_on(
    alloc: Global,
    fabric: &Fabric,
    depth: u8,
) -> Result<Option<Comparison>, AllocError> {
    if fabric.hosts() == 0 || depth > 32 {
        return Ok(None);
    }
    let mut prober = FabricProber::new(fabric, 0);
    match grow(alloc, &mut prober, depth) {
        Ok(grown) => compared(alloc, &grown.journal),
        Err(wanting) => Err(wanting),
    }
}

// Compares the classes of a journal after each of its entries; none where it has too many.
fn compared(alloc: Global, journal: &Journal) -> Result<Option<Comparison>, AllocError>
    requires { IsTrueOfOne journal.now.host journal.now.entries }
{
    if journal.entries().len() > MOST {
        return Ok(None);
    }
    let compared = go_through(alloc, journal)?;
    Ok(Some(compared))
}

// Compares after each entry, from classes of no entries on.
fn go_through(alloc: Global, j: &Journal) -> Result<Comparison, AllocError>
    requires true_of_one { IsTrueOfOne j.now.host j.now.entries }
    requires few { length j.now.entries < 4294967295 }
{
    let mut classes = Classes::new(alloc, j.host())?;
    go_along(alloc, j, &mut classes)
}

// Compares after each entry.
fn go_along(alloc: Global, j: &Journal, classes: &mut Classes) -> Result<Comparison, AllocError>
    requires true_of_one { IsTrueOfOne j.now.host j.now.entries }
    requires few { length j.now.entries < 4294967295 }
    requires none_yet { StandsFor j.now.host [] classes.old }
{
    let mut so_far = SoFar::new(alloc, j.host())?;
    go_on(alloc, j, classes, &mut so_far)
}

// Pushes the entries one by one, and compares after each.
fn go_on<'j>(
    alloc: Global,
    j: &'j Journal,
    classes: &mut Classes,
    so_far: &mut SoFar<'j>,
) -> Result<Comparison, AllocError>
    requires true_of_one { IsTrueOfOne j.now.host j.now.entries }
    requires few { length j.now.entries < 4294967295 }
    requires none_yet { StandsFor j.now.host [] classes.old }
{
    let entries = j.entries();
    let mut compared = no_comparison();
    let mut journal = Journal::new(alloc, j.host());
    for e in entries {
        classes.push(alloc, e)?;
        so_far.push(e)?;
        put(alloc, &mut journal, e)?;
        compare(alloc, entries, so_far, classes, &mut compared)?;
        compare_at_once(alloc, &journal, classes, &mut compared)?;
    }
    Ok(compared)
}

const fn no_comparison() -> Comparison {
    Comparison {
        asks: 0,
        agreed: 0,
        at_once: 0,
        nodes: 1,
        pairs: 1,
        expanded: 0,
    }
}

// Compares classes with those of the journal so far, made at once.
fn compare_at_once(
    alloc: Global,
    journal: &Journal,
    classes: &Classes,
    compared: &mut Comparison,
) -> Result<(), AllocError>
    requires true_of_one { IsTrueOfOne journal.now.host journal.now.entries }
    requires few { length journal.now.entries < 4294967295 }
    requires some { 0 < length classes.now.nodes }
{
    if are_those_at_once(alloc, journal, classes)? {
        compared.at_once = compared.at_once.saturating_add(1);
    }
    Ok(())
}

// Compares classes with the entries so far.
fn compare(
    alloc: Global,
    entries: &[Entry],
    so_far: &SoFar,
    classes: &Classes,
    compared: &mut Comparison,
) -> Result<(), AllocError>
    requires { 0 < length classes.now.nodes }
{
    let nodes = nodes_of(alloc, entries, classes)?;
    let pairs = joined(alloc, &nodes)?;
    let plain = replicates(alloc, &so_far.found, &so_far.hosts)?;
    if are_the_same(&pairs, &plain) && are_expanded(&nodes, &plain, so_far) {
        compared.agreed = compared.agreed.saturating_add(1);
    }
    compared.asks = so_far.asked.len();
    compared.nodes = nodes.len();
    compared.pairs = pairs.len();
    compared.expanded = count_expanded(&nodes);
    Ok(())
}

// Whether just those nodes are expanded of which a replicate has all its turns asked.
fn are_expanded(nodes: &[ClassedNode], plain: &[Pair], so_far: &SoFar) -> bool {
    for (place, node) in nodes.iter().enumerate() {
        if node.expanded != has_expanded(place, plain, so_far) {
            return false;
        }
    }
    true
}

// Whether a replicate of a node has all its turns asked.
fn has_expanded(node: usize, plain: &[Pair], so_far: &SoFar) -> bool {
    for (u, v, _) in plain {
        if *u == node && so_far.is_expanded(*v) {
            return true;
        }
    }
    false
}

// How many nodes are of a class with an expanded member.
fn count_expanded(nodes: &[ClassedNode]) -> usize {
    let mut count = 0usize;
    for node in nodes {
        if node.expanded {
            count = count.saturating_add(1);
        }
    }
    count
}
