//! One node after another, in the order of their walks.

ghost use Rattle.std.specs.Prelude.{◌≡◌, ◌<◌, ◌≤◌, true, false, length, All, IfOk, OnOk, OnErr, Ok};
ghost use Rattle.net_defs.specs.Turn.{IsTurn};
ghost use Rattle.mapper.specs.Finding.{IsNodeAt};
ghost use Rattle.mapper.specs.Growths.{HasGrown, StopsShort, IsToldOf, IsNextOpen, IsSwept, IsWhole, IsWalkAt};

use crate::expanding::expand;
use crate::opening::next_open;
use crate::tree::{NODE_LIMIT, Tree};
use probe::Prober;
use std::alloc::{AllocError, Global};

/// Expands the next node that is to be expanded; false where there is none, or where the limit of nodes was passed.
/// `next` is the place from which one is looked for, and `likely` the number that the node there is likely to have.
pub(crate) fn expand_next<P: Prober>(
    alloc: Global,
    p: &mut P,
    tree: &mut Tree,
    next: &mut usize,
    likely: &mut u32,
) -> Result<bool, AllocError>
    requires is_ready { P.ready p.old }
    requires mapper { tree.old.journal.host ≡ P.mapper p.old }
    requires shallow { tree.old.depth ≤ 32 }
    requires told { IsToldOf (P.fabric p.old) (P.mapper p.old) tree.old.journal.entries }
    requires settled { IsSwept tree.old next.old }
    ensures grown { OnOk result (HasGrown P.State P.asked (P.fabric p.old) tree.old (P.state p.old)
        (P.lost p.old) tree.new (P.state p.new) (P.lost p.new)) }
    ensures goes_on { result ≡ Ok true → IsSwept tree.new next.new }
    ensures rises { result ≡ Ok true → next.old < next.new }
    ensures ends { result ≡ Ok false → IsWhole tree.new }
    ensures stopped { OnErr result
        (StopsShort P.State P.asked P.cut tree.old.journal.host tree.old.depth tree.old.journal.entries
        (P.state p.old) (P.state p.new)) }
    ensures later { P.lost p.old ≤ P.lost p.new }
    ensures same_fabric { P.fabric p.new ≡ P.fabric p.old }
    ensures same_mapper { P.mapper p.new ≡ P.mapper p.old }
    ensures stays_ready { OnOk result (P.ready p.new) }
{
    match next_open(&tree.classes, &tree.journal, *next, tree.depth, likely) {
        Some((place, node)) => expand_at(alloc, p, tree, next, likely, place, node),
        None => Ok(false),
    }
}

// Expands the node at the next place where one is to be expanded.
fn expand_at<P: Prober>(
    alloc: Global,
    p: &mut P,
    tree: &mut Tree,
    next: &mut usize,
    likely: &mut u32,
    place: usize,
    node: u32,
) -> Result<bool, AllocError>
    requires is_ready { P.ready p.old }
    requires mapper { tree.old.journal.host ≡ P.mapper p.old }
    requires shallow { tree.old.depth ≤ 32 }
    requires told { IsToldOf (P.fabric p.old) (P.mapper p.old) tree.old.journal.entries }
    requires settled { IsSwept tree.old next.old }
    requires is_next { IsNextOpen tree.old.journal.host tree.old.depth tree.old.journal.entries next.old place }
    requires node { IsNodeAt tree.old.classes tree.old.journal.entries place node }
    ensures grown { OnOk result (HasGrown P.State P.asked (P.fabric p.old) tree.old (P.state p.old)
        (P.lost p.old) tree.new (P.state p.new) (P.lost p.new)) }
    ensures goes_on { result ≡ Ok true → IsSwept tree.new next.new }
    ensures rises { result ≡ Ok true → next.old < next.new }
    ensures ends { result ≡ Ok false → IsWhole tree.new }
    ensures stopped { OnErr result
        (StopsShort P.State P.asked P.cut tree.old.journal.host tree.old.depth tree.old.journal.entries
        (P.state p.old) (P.state p.new)) }
    ensures later { P.lost p.old ≤ P.lost p.new }
    ensures same_fabric { P.fabric p.new ≡ P.fabric p.old }
    ensures same_mapper { P.mapper p.new ≡ P.mapper p.old }
    ensures stays_ready { OnOk result (P.ready p.new) }
{
    let front = turns_at(alloc, tree, place)?;
    expand(alloc, p, tree, &front, node)?;
    *next = place + 1;
    *likely = likely.saturating_add(1);
    Ok(tree.nodes <= NODE_LIMIT)
}

// The turns of the walk at a place of the journal.
fn turns_at(alloc: Global, tree: &Tree, place: usize) -> Result<Vec<i8>, AllocError>
    requires { place < length tree.now.journal.entries }
    ensures there { IfOk result (λ turns. IsWalkAt tree.now.journal.entries place turns.items) }
    ensures in_range { IfOk result (λ turns. All IsTurn turns.items) }
{
    let entries = tree.journal.entries();
    entries[place].walk.turns().to_vec(alloc)
}
