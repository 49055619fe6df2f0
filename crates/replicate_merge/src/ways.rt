//! The ways of one node.

ghost use Rattle.std.specs.Prelude.{◌≡◌, ◌+◌, ◌++◌, ◌<◌, ◌^◌, length, Some, IfOk, OnOk};
ghost use Rattle.journal_defs.specs.Tree.{is_found};
ghost use Rattle.replicate_merge.specs.Nodes.{nodes_of};
ghost use Rattle.replicate_merge.specs.Cables.{host_ways, both_ways, AddsCables};
ghost use Rattle.replicate_merge.specs.Onward.{AreOnce};
ghost use Rattle.replicate_merge.specs.Own.{AreOwnWays};
ghost use Rattle.replicate_merge.specs.Between.{IsFrontOf};

use crate::Way;
use crate::fronts::Front;
use net_defs::Answer;
use probe::WalkIndex;
use std::alloc::{AllocError, Global};

/// How many turns a node has.
pub(crate) const TURNS: u8 = 30;

/// Whether a host or a switch was found.
pub(crate) fn is_found(answer: Answer) -> bool
    ensures { result ≡ is_found answer }
{
    match answer {
        Answer::Host(_) | Answer::Switch => true,
        Answer::Nothing => false,
    }
}

/// Puts the ways that an entry shows by itself in the place of others: of the host at its node, and between its node
/// and what stands in front of its walk.
pub(crate) fn own_ways(
    ways: &mut Vec<Way>,
    walks: &WalkIndex,
    walk: &[i8],
    answer: Answer,
    node: u32,
    front: Front,
) -> Result<(), AllocError>
    requires few { length walks.now + 1 < 2 ^ 32 }
    requires once { AreOnce (nodes_of walks.now) }
    requires front { IsFrontOf (nodes_of walks.now) walk.now front }
    ensures { OnOk result (AreOwnWays (nodes_of walks.now) (record { walk = walk.now; answer = answer }) node
        ways.new.items) }
{
    ways.clear();
    push_host(ways, Some(answer), node)?;
    push_cables(ways, walks, walk, node, front)?;
    Ok(())
}

// Adds the way of a node that is a host.
fn push_host(ways: &mut Vec<Way>, answer: Option<Answer>, node: u32) -> Result<(), AllocError>
    ensures { OnOk result (ways.new.items ≡ ways.old.items ++ host_ways answer node) }
{
    if let Some(Answer::Host(address)) = answer {
        ways.push(Way::Host { address, node })?;
    }
    Ok(())
}

// Adds the ways between a node and the one in front of it, where that is there.
fn push_cables(
    ways: &mut Vec<Way>,
    _walks: &WalkIndex,
    _walk: &[i8],
    node: u32,
    front: Front,
) -> Result<(), AllocError>
    requires { IsFrontOf (nodes_of _walks.now) _walk.now front }
    ensures { OnOk result (AddsCables _walks.now _walk.now node ways.old.items ways.new.items) }
{
    match front {
        Front::Mapper => push_both(ways, 0, 0, node),
        Front::Node(from, turn) => push_both(ways, from, turn, node),
        Front::Missing => Ok(()),
    }
}

/// Adds a way between two nodes, both ways.
pub(crate) fn push_both(ways: &mut Vec<Way>, from: u32, port: i8, to: u32) -> Result<(), AllocError>
    ensures { OnOk result (ways.new.items ≡ ways.old.items ++ both_ways from port to) }
{
    ways.push(Way::Cable {
        from,
        port,
        to,
        entry: 0,
    })?;
    ways.push(Way::Cable {
        from: to,
        port: 0,
        to: from,
        entry: port,
    })?;
    Ok(())
}
