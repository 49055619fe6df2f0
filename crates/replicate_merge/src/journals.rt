//! What is read off a whole journal, entry by entry and in any order: its nodes, how many turns of each are asked, and
//! the walks that found nothing with no node in front.

ghost use Rattle.std.specs.Prelude.{◌≡◌, ◌+◌, ◌++◌, ◌∷◌, [], ◌<◌, false, true, if◌then◌else◌, length, take, IfOk, OnOk};
ghost use Rattle.journal_defs.specs.Tree.{is_found, nodes};
ghost use Rattle.probe.specs.Keeping.{has_walk};
ghost use Rattle.replicate_merge.specs.Asked.{CountsAsked, HasOrphans};
ghost use Rattle.replicate_merge.specs.Nodes.{nodes_of};
ghost use Rattle.replicate_merge.specs.AtOnce.{AreOrphans};

use crate::fronts::{Front, front_of};
use crate::ways::is_found;
use probe::{Entry, Journal, WalkIndex};
use std::alloc::{AllocError, Global};

/// The walks of a journal that found a host or a switch, in its order.
pub(crate) fn found_walks(alloc: Global, j: &Journal) -> Result<WalkIndex, AllocError>
    ensures { IfOk result (λ walks. nodes_of walks ≡ nodes j.now.entries) }
{
    let mut walks = WalkIndex::new(alloc);
    for e in j.entries() {
        push_found(alloc, &mut walks, e)?;
    }
    Ok(walks)
}

// Adds the walk of an entry that found something.
fn push_found(alloc: Global, walks: &mut WalkIndex, e: &Entry) -> Result<(), AllocError>
    requires { has_walk walks.old e.now.walk ≡ false }
    ensures { OnOk result (walks.new ≡ (if is_found e.now.answer then walks.old ++ e.now.walk ∷ [] else walks.old)) }
{
    if is_found(e.answer) {
        return walks.push(alloc, e.walk.turns());
    }
    Ok(())
}

/// How many turns of each node of a journal are asked.
pub(crate) fn count_turns(
    alloc: Global,
    j: &Journal,
    walks: &WalkIndex,
) -> Result<Vec<u8>, AllocError>
    requires few { length j.now.entries < 4294967295 }
    requires nodes { nodes_of walks.now ≡ nodes j.now.entries }
    ensures { IfOk result (λ asked. CountsAsked j.now.entries (nodes_of walks.now) asked.items) }
{
    let mut asked = vec![in alloc; 0; walks.len() + 1]?;
    for at in 0..j.entries().len() {
        count_turn_at(j, at, walks, &mut asked);
    }
    Ok(asked)
}

// Counts the turn of the entry at a place, where a node is in front of it.
fn count_turn_at(j: &Journal, at: usize, walks: &WalkIndex, asked: &mut Vec<u8>)
    requires there { at < length j.now.entries }
    requires few { length j.now.entries < 4294967295 }
    requires nodes { nodes_of walks.now ≡ nodes j.now.entries }
    requires counts { CountsAsked (take at j.now.entries) (nodes_of walks.now) asked.old.items }
    ensures { CountsAsked (take (at + 1) j.now.entries) (nodes_of walks.now) asked.new.items }
{
    match front_of(walks, j.entries()[at].walk.turns(), 0) {
        Front::Node(node, turn) => {
            if turn != 0 {
                asked[node as usize] += 1;
            }
        }
        Front::Mapper => {}
        Front::Missing => {}
    }
}

/// The walks of a journal that found nothing and have no node in front.
pub(crate) fn orphans_of(
    alloc: Global,
    j: &Journal,
    walks: &WalkIndex,
) -> Result<WalkIndex, AllocError>
    requires few { length j.now.entries < 4294967295 }
    requires nodes { nodes_of walks.now ≡ nodes j.now.entries }
    ensures { IfOk result (λ orphans. HasOrphans j.now.entries orphans true) }
{
    let mut orphans = WalkIndex::new(alloc);
    for at in 0..j.entries().len() {
        push_orphan_at(alloc, j, at, walks, &mut orphans)?;
    }
    Ok(orphans)
}

// Adds the walk of the entry at a place, where it found nothing and no node is in front of it.
fn push_orphan_at(
    alloc: Global,
    j: &Journal,
    at: usize,
    walks: &WalkIndex,
    orphans: &mut WalkIndex,
) -> Result<(), AllocError>
    requires there { at < length j.now.entries }
    requires few { length j.now.entries < 4294967295 }
    requires nodes { nodes_of walks.now ≡ nodes j.now.entries }
    requires before { AreOrphans (take at j.now.entries) walks.now orphans.old }
    ensures { OnOk result (AreOrphans (take (at + 1) j.now.entries) walks.now orphans.new) }
{
    let e = &j.entries()[at];
    if is_found(e.answer) {
        return Ok(());
    }
    match front_of(walks, e.walk.turns(), 0) {
        Front::Missing => orphans.push(alloc, e.walk.turns()),
        Front::Mapper => Ok(()),
        Front::Node(_, _) => Ok(()),
    }
}
