//! The classes of a whole journal, joined at once: first all its nodes, then the ways that each entry shows, and
//! then joins until no pair is open.

ghost use Rattle.std.specs.Prelude.{◌≡◌, ◌+◌, ◌<◌, length, IfOk, OnOk};
ghost use Rattle.journal_defs.specs.Tree.{nodes};
ghost use Rattle.replicate_merge.specs.Asked.{CountsAsked};
ghost use Rattle.replicate_merge.specs.Nodes.{nodes_of};
ghost use Rattle.replicate_merge.specs.Table.{IsTrueOfOne};
ghost use Rattle.replicate_merge.specs.AtOnce.{HasAllWays, HasOwnNodes, HasOwnWays, IsHostAlone};

use crate::Joined;
use crate::fronts::front_of;
use crate::starting::lone_host;
use crate::ways::{TURNS, is_found, own_ways};
use probe::{Journal, WalkIndex};
use std::alloc::{AllocError, Global};

/// The classes of a journal's nodes, joined until no pair is open. `walks` are those of the nodes, and `asked` counts
/// their asked turns.
pub(crate) fn joined_at_once(
    alloc: Global,
    j: &Journal,
    walks: &WalkIndex,
    asked: &Vec<u8>,
) -> Result<Joined, AllocError>
    requires true_of_one { IsTrueOfOne j.now.host j.now.entries }
    requires few { length j.now.entries < 4294967295 }
    requires nodes { nodes_of walks.now ≡ nodes j.now.entries }
    requires asked { CountsAsked j.now.entries (nodes_of walks.now) asked.now.items }
    ensures { IfOk result (λ t. HasAllWays j.now.host j.now.entries (nodes_of walks.now) t) }
{
    let mut joined = lone_host(alloc, j.host())?;
    add_nodes(j, asked, &mut joined)?;
    add_all_ways(alloc, j, walks, &mut joined)?;
    settle_all(j, walks, &mut joined)?;
    Ok(joined)
}

// Adds the nodes of a journal, each as a class of its own.
fn add_nodes(j: &Journal, asked: &Vec<u8>, joined: &mut Joined) -> Result<(), AllocError>
    requires true_of_one { IsTrueOfOne j.now.host j.now.entries }
    requires few { length j.now.entries < 4294967295 }
    requires asked { CountsAsked j.now.entries (nodes j.now.entries) asked.now.items }
    requires alone { IsHostAlone j.now.host joined.old }
    ensures { OnOk result (HasOwnNodes j.now.host j.now.entries (length j.now.entries) joined.new) }
{
    for at in 0..j.entries().len() {
        add_node_at(j, at, asked, joined)?;
    }
    Ok(())
}

// Adds the node of the entry at a place, where it found something.
fn add_node_at(
    j: &Journal,
    at: usize,
    asked: &Vec<u8>,
    joined: &mut Joined,
) -> Result<(), AllocError>
    requires there { at < length j.now.entries }
    requires few { length j.now.entries < 4294967295 }
    requires asked { CountsAsked j.now.entries (nodes j.now.entries) asked.now.items }
    requires before { HasOwnNodes j.now.host j.now.entries at joined.old }
    ensures { OnOk result (HasOwnNodes j.now.host j.now.entries (at + 1) joined.new) }
{
    if !is_found(j.entries()[at].answer) {
        return Ok(());
    }
    let node = joined.frames.len();
    joined.reserve(0)?;
    joined.add_node(asked[node] == TURNS);
    Ok(())
}

// Adds the ways that each entry of a journal shows.
fn add_all_ways(
    alloc: Global,
    j: &Journal,
    walks: &WalkIndex,
    joined: &mut Joined,
) -> Result<(), AllocError>
    requires few { length j.now.entries < 4294967295 }
    requires nodes { nodes_of walks.now ≡ nodes j.now.entries }
    requires own { HasOwnNodes j.now.host j.now.entries (length j.now.entries) joined.old }
    ensures { OnOk result (HasOwnWays j.now.host j.now.entries (nodes_of walks.now) (length j.now.entries) joined.new) }
{
    for at in 0..j.entries().len() {
        add_ways_at(alloc, j, at, walks, joined)?;
    }
    Ok(())
}

// Adds the ways that the entry at a place shows.
fn add_ways_at(
    alloc: Global,
    j: &Journal,
    at: usize,
    walks: &WalkIndex,
    joined: &mut Joined,
) -> Result<(), AllocError>
    requires there { at < length j.now.entries }
    requires few { length j.now.entries < 4294967295 }
    requires nodes { nodes_of walks.now ≡ nodes j.now.entries }
    requires before { HasOwnWays j.now.host j.now.entries (nodes_of walks.now) at joined.old }
    ensures { OnOk result (HasOwnWays j.now.host j.now.entries (nodes_of walks.now) (at + 1) joined.new) }
{
    let e = &j.entries()[at];
    let Some(place) = walks.find(e.walk.turns()) else {
        return Ok(());
    };
    let mut ways = Vec::new(alloc);
    own_ways(
        &mut ways,
        walks,
        e.walk.turns(),
        e.answer,
        (place + 1) as u32,
        front_of(walks, e.walk.turns(), 0),
    )?;
    joined.reserve(ways.len())?;
    joined.add_ways(walks, &ways);
    Ok(())
}

// Joins classes until no pair is open.
fn settle_all(j: &Journal, walks: &WalkIndex, joined: &mut Joined) -> Result<(), AllocError>
    requires few { length j.now.entries < 4294967295 }
    requires nodes { nodes_of walks.now ≡ nodes j.now.entries }
    requires own { HasOwnWays j.now.host j.now.entries (nodes_of walks.now) (length j.now.entries) joined.old }
    ensures { OnOk result (HasAllWays j.now.host j.now.entries (nodes_of walks.now) joined.new) }
{
    let _entries = j.entries();
    joined.reserve(0)?;
    joined.settle(walks);
    Ok(())
}
