//! The growth of a journal to its depth.

ghost use Rattle.std.specs.Prelude.{◌≡◌, ◌≤◌, ◌↔◌, [], IsTrue, IfOk, OnOk, OnErr};
ghost use Rattle.fab_outer.specs.Fault.{Rose};
ghost use Rattle.journal_defs.specs.Growth.{IsGrown, IsEndedAtLimit};
ghost use Rattle.journal_defs.specs.Truth.{IsTrueJournal, IsTrueWhereFound};
ghost use Rattle.net_defs.specs.Network.{IsFabric};
ghost use Rattle.replicate_merge.specs.Table.{StandsFor};
ghost use Rattle.mapper.specs.Asks.{AreAsked};
ghost use Rattle.mapper.specs.Growths.{StopsShort, IsBareTree, IsGrownTree, IsStarted, grown_of};

use crate::asking::ask;
use crate::sweep::expand_next;
use crate::tree::{NODE_LIMIT, Tree};
use crate::walks::empty_walk;
use probe::{Journal, Prober};
use replicate_merge::{Classes, Front};
use std::alloc::{AllocError, Global};

/// A journal that has grown to its depth, with its classes.
#[derive(Drop)]
pub struct Grown {
    /// The asks of the host, with their answers.
    pub journal: Journal,
    /// Which of its nodes are one switch or one host.
    pub classes: Classes,
    /// The growth ended because the last answer made one node more than a journal keeps.
    pub at_limit: bool,
}

/// Grows the journal of the prober's host to a depth of so many cables.
///
/// The next ask is always the least that is due: the empty walk, the next turn of the node that is being expanded, or
/// the first turn of the next node that lies within the depth and whose class has no expanded member. Classes go on
/// with each answer, so that no ask looks at the whole journal. Where it runs out of memory, the journal is lost, and
/// the prober was asked a part of these asks.
pub fn grow<P: Prober>(alloc: Global, p: &mut P, depth: u8) -> Result<Grown, AllocError>
    requires shallow { depth ≤ 32 }
    requires is_ready { P.ready p.old }
    ensures host { IfOk result (λ g. g.journal.host ≡ P.mapper p.old) }
    ensures grown { IfOk result (λ g. IsGrown (P.mapper p.old) depth g.journal.entries) }
    ensures asked { IfOk result (λ g. AreAsked P.State P.asked (P.state p.old) g.journal.entries (P.state p.new)) }
    ensures found { IfOk result (λ g. IsTrueWhereFound (P.fabric p.old) (P.mapper p.old) g.journal.entries) }
    ensures truth { IfOk result (λ g. (Rose (P.lost p.old) (P.lost p.new) → ⊥)
        → IsTrueJournal (P.fabric p.old) (P.mapper p.old) g.journal.entries) }
    ensures stands { IfOk result (λ g. StandsFor g.journal.host g.journal.entries g.classes) }
    ensures at_limit { IfOk result (λ g. IsTrue g.at_limit ↔ IsEndedAtLimit g.journal.entries) }
    ensures stopped { OnErr result (StopsShort P.State P.asked P.cut (P.mapper p.old) depth [] (P.state p.old)
        (P.state p.new)) }
    ensures later { P.lost p.old ≤ P.lost p.new }
    ensures same_fabric { P.fabric p.new ≡ P.fabric p.old }
    ensures same_mapper { P.mapper p.new ≡ P.mapper p.old }
    ensures stays_ready { OnOk result (P.ready p.new) }
{
    let host = p.host();
    let mut tree = bare_tree(alloc, host, depth)?;
    match grow_tree(alloc, p, &mut tree) {
        Ok(()) => Ok(grown_of(tree)),
        Err(_) => Err(lost(tree)),
    }
}

// The tree of a host before its first ask.
fn bare_tree(alloc: Global, host: u16, depth: u8) -> Result<Tree, AllocError>
    ensures { IfOk result (λ t. IsBareTree host depth t) }
{
    let classes = Classes::new(alloc, host)?;
    Ok(Tree {
        journal: Journal::new(alloc, host),
        classes,
        nodes: 1,
        depth,
    })
}

// What a tree has grown to.
fn grown_of(tree: Tree) -> Grown
    ensures { result ≡ grown_of tree }
{
    Grown {
        journal: tree.journal,
        classes: tree.classes,
        at_limit: tree.nodes > NODE_LIMIT,
    }
}

// The end of a tree whose growth ran out of memory. It ends here, since a proof goes through all its parts.
fn lost(tree: Tree) -> AllocError {
    let _tree = tree;
    AllocError
}

// Asks the empty walk, and then expands one node after another.
fn grow_tree<P: Prober>(alloc: Global, p: &mut P, tree: &mut Tree) -> Result<(), AllocError>
    requires shallow { tree.old.depth ≤ 32 }
    requires is_ready { P.ready p.old }
    requires bare { IsBareTree (P.mapper p.old) tree.old.depth tree.old }
    ensures grown { OnOk result (IsGrownTree P.State P.asked (P.fabric p.old) (P.mapper p.old) tree.old.depth
        (P.state p.old) (P.lost p.old) tree.new (P.state p.new) (P.lost p.new)) }
    ensures stopped { OnErr result (StopsShort P.State P.asked P.cut (P.mapper p.old) tree.old.depth [] (P.state p.old)
        (P.state p.new)) }
    ensures later { P.lost p.old ≤ P.lost p.new }
    ensures same_fabric { P.fabric p.new ≡ P.fabric p.old }
    ensures same_mapper { P.mapper p.new ≡ P.mapper p.old }
    ensures stays_ready { OnOk result (P.ready p.new) }
{
    start(alloc, p, tree)?;
    let mut next = 0;
    let mut likely = 1;
    'growing: while expand_next(alloc, p, tree, &mut next, &mut likely)? {}
    Ok(())
}

// Asks the empty walk.
fn start<P: Prober>(alloc: Global, p: &mut P, tree: &mut Tree) -> Result<(), AllocError>
    requires is_ready { P.ready p.old }
    requires bare { IsBareTree (P.mapper p.old) tree.old.depth tree.old }
    ensures started { OnOk result (IsStarted P.State P.asked (P.fabric p.old) (P.mapper p.old) tree.old.depth
        (P.state p.old) (P.lost p.old) tree.new (P.state p.new) (P.lost p.new)) }
    ensures stopped { OnErr result (StopsShort P.State P.asked P.cut (P.mapper p.old) tree.old.depth [] (P.state p.old)
        (P.state p.new)) }
    ensures one_fabric { IsFabric (P.fabric p.old) }
    ensures later { P.lost p.old ≤ P.lost p.new }
    ensures same_fabric { P.fabric p.new ≡ P.fabric p.old }
    ensures same_mapper { P.mapper p.new ≡ P.mapper p.old }
    ensures stays_ready { OnOk result (P.ready p.new) }
{
    let _host = p.host();
    let walk = empty_walk(alloc)?;
    ask(alloc, p, tree, walk, Front::Mapper)
}
