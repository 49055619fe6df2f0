//! The 30 turns of one node.

ghost use Rattle.std.specs.Prelude.{◌≡◌, ◌≤◌, All, slice_get, Some, OnOk, OnErr};
ghost use Rattle.journal_defs.specs.Tree.Node.{Reached};
ghost use Rattle.net_defs.specs.Turn.{IsTurn};
ghost use Rattle.journal_defs.specs.Growth.{IsAtRest, IsChosen};
ghost use Rattle.mapper.specs.Growths.{HasGrown, StopsShort, IsToldOf, IsUnderWay, ExpandsOrFills};

use crate::asking::ask;
use crate::tree::{NODE_LIMIT, Tree};
use crate::walks::{TURNS, onward, onward_by, turn_at};
use probe::Prober;
use replicate_merge::Front;
use std::alloc::{AllocError, Global};

/// Asks the turns of a node in rising order, up to the answer that passes the limit of nodes. These are its walk and
/// its number.
pub(crate) fn expand<P: Prober>(
    alloc: Global,
    p: &mut P,
    tree: &mut Tree,
    front: &[i8],
    node: u32,
) -> Result<(), AllocError>
    requires is_ready { P.ready p.old }
    requires mapper { tree.old.journal.host ≡ P.mapper p.old }
    requires shallow { tree.old.depth ≤ 32 }
    requires told { IsToldOf (P.fabric p.old) (P.mapper p.old) tree.old.journal.entries }
    requires under_way { IsUnderWay tree.old }
    requires rest { IsAtRest tree.old.journal.entries }
    requires chosen { IsChosen tree.old.journal.host tree.old.depth tree.old.journal.entries front.now }
    requires turns { All IsTurn front.now }
    requires node { slice_get tree.old.classes.nodes node ≡ Some (Reached front.now) }
    ensures grown { OnOk result (HasGrown P.State P.asked (P.fabric p.old) tree.old (P.state p.old)
        (P.lost p.old) tree.new (P.state p.new) (P.lost p.new)) }
    ensures expanded { OnOk result (ExpandsOrFills tree.new front.now) }
    ensures stopped { OnErr result
        (StopsShort P.State P.asked P.cut tree.old.journal.host tree.old.depth tree.old.journal.entries
        (P.state p.old) (P.state p.new)) }
    ensures later { P.lost p.old ≤ P.lost p.new }
    ensures same_fabric { P.fabric p.new ≡ P.fabric p.old }
    ensures same_mapper { P.mapper p.new ≡ P.mapper p.old }
    ensures stays_ready { OnOk result (P.ready p.new) }
{
    let mut next = onward(alloc, front, 0)?;
    for step in 0..TURNS {
        let turn = turn_at(step);
        let walk = onward_by(alloc, &mut next, front, turn)?;
        ask(alloc, p, tree, walk, Front::Node(node, turn))?;
        if tree.nodes > NODE_LIMIT {
            return Ok(());
        }
    }
    Ok(())
}
