//! One ask, with its answer put into the journal.

ghost use Rattle.std.specs.Prelude.{◌≡◌, ◌≤◌, length, OnOk, OnErr, if◌then◌else◌};
ghost use Rattle.journal_defs.specs.Tree.{is_found};
ghost use Rattle.net_defs.specs.Route.{answer};
ghost use Rattle.journal_defs.specs.Growth.{node_limit};
ghost use Rattle.replicate_merge.specs.Between.{IsFrontOf};
ghost use Rattle.mapper.specs.Growths.{IsAsk, IsLostAsk, IsNextWalk, IsNextEntry, GrownBy};

use crate::tree::Tree;
use net_defs::{Answer, Walk};
use probe::{Entry, Prober};
use replicate_merge::Front;
use std::alloc::{AllocError, Global};

/// Asks a walk, in front of whose last turn this stands, and puts it with its answer at the end of the journal.
pub(crate) fn ask<P: Prober>(
    alloc: Global,
    p: &mut P,
    tree: &mut Tree,
    walk: Walk,
    front: Front,
) -> Result<(), AllocError>
    requires short { length walk ≤ 31 }
    requires is_ready { P.ready p.old }
    requires next { IsNextWalk (P.fabric p.old) (P.mapper p.old) tree.old walk }
    requires front { IsFrontOf tree.old.classes.nodes walk front }
    requires few { tree.old.nodes ≤ node_limit }
    ensures ok { OnOk result (IsAsk P.State P.asked (answer (P.fabric p.old) (P.mapper p.old) walk) (P.state p.old)
        (P.lost p.old) walk tree.old tree.new (P.state p.new) (P.lost p.new)) }
    ensures err { OnErr result (IsLostAsk P.State P.asked P.cut (P.state p.old) walk (P.state p.new)) }
    ensures later { P.lost p.old ≤ P.lost p.new }
    ensures same_fabric { P.fabric p.new ≡ P.fabric p.old }
    ensures same_mapper { P.mapper p.new ≡ P.mapper p.old }
    ensures stays_ready { OnOk result (P.ready p.new) }
{
    let answer = p.ask(&walk)?;
    keep(alloc, tree, walk, answer, front)
}

// Puts an entry at the end of the journal. Its walk doesn't stand there: none is asked twice.
fn keep(
    alloc: Global,
    tree: &mut Tree,
    walk: Walk,
    answer: Answer,
    front: Front,
) -> Result<(), AllocError>
    requires few { tree.old.nodes ≤ node_limit }
    requires next { IsNextEntry tree.old (record { walk = walk; answer = answer }) }
    requires front { IsFrontOf tree.old.classes.nodes walk front }
    ensures { OnOk result (GrownBy walk answer tree.old tree.new) }
{
    let entry = Entry { walk, answer };
    tree.classes.push_at(alloc, &entry, front)?;
    tree.journal.push_new(alloc, entry)?;
    tree.nodes += node_count(answer);
    Ok(())
}

// How many nodes an answer makes.
fn node_count(answer: Answer) -> usize
    ensures { result ≡ (if is_found answer then 1 else 0) }
{
    match answer {
        Answer::Host(_) | Answer::Switch => 1,
        Answer::Nothing => 0,
    }
}
