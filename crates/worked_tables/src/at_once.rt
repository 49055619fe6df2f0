//! Classes kept entry by entry, compared with those of the whole journal made at once.

ghost use Rattle.std.specs.Prelude.{◌<◌, length};
ghost use Rattle.replicate_merge.specs.Table.{IsTrueOfOne};

use crate::plain::are_the_same;
use crate::seen::{ClassedNode, joined, nodes_of};
use probe::{Entry, Journal};
use replicate_merge::Classes;
use std::alloc::{AllocError, Global};

/// Whether classes say the same as those of a journal made at once: how many they are, the number of each walk's
/// node, which nodes are of an expanded class, and which are of one class and how far apart.
pub(crate) fn are_those_at_once(
    alloc: Global,
    journal: &Journal,
    classes: &Classes,
) -> Result<bool, AllocError>
    requires true_of_one { IsTrueOfOne journal.now.host journal.now.entries }
    requires few { length journal.now.entries < 4294967295 }
    requires some { 0 < length classes.now.nodes }
{
    let at_once = Classes::from_journal(alloc, journal)?;
    tell_the_same(alloc, journal.entries(), classes, &at_once)
}

// Whether two say the same of the walks of these entries.
fn tell_the_same(
    alloc: Global,
    entries: &[Entry],
    classes: &Classes,
    others: &Classes,
) -> Result<bool, AllocError>
    requires first { 0 < length classes.now.nodes }
    requires second { 0 < length others.now.nodes }
{
    let nodes = nodes_of(alloc, entries, classes)?;
    let other_nodes = nodes_of(alloc, entries, others)?;
    let pairs = joined(alloc, &nodes)?;
    let other_pairs = joined(alloc, &other_nodes)?;
    Ok(
        classes.count() == others.count()
            && number_alike(entries, classes, others)
            && are_expanded_alike(&nodes, &other_nodes)
            && are_the_same(&pairs, &other_pairs),
    )
}

// Whether two number the nodes of these entries' walks alike.
fn number_alike(entries: &[Entry], classes: &Classes, others: &Classes) -> bool {
    for e in entries {
        if classes.node_of(&e.walk) != others.node_of(&e.walk) {
            return false;
        }
    }
    true
}

// Whether the same of two lists of nodes are of an expanded class.
fn are_expanded_alike(nodes: &[ClassedNode], others: &[ClassedNode]) -> bool {
    if nodes.len() != others.len() {
        return false;
    }
    for (node, other) in nodes.iter().zip(others) {
        if node.expanded != other.expanded {
            return false;
        }
    }
    true
}
