//! Which node is to be expanded next.

ghost use Rattle.std.specs.Prelude.{◌≡◌, ◌<◌, length, slice_get, not, is_some, Some, None, IfSome};
ghost use Rattle.journal_defs.specs.Tree.Node.{Reached};
ghost use Rattle.replicate_merge.specs.Table.{StandsFor};
ghost use Rattle.mapper.specs.Growths.{AreExpanded, IsNextOpen};
ghost use Rattle.mapper.specs.Finding.{IsNodeAt, TellsExpanded, TellsOpen, TellsOpenAt};

use net_defs::{Answer, Walk};
use probe::{Entry, Journal};
use replicate_merge::{Classes, number_after};

/// The first place of a journal, from one on, where a switch stands that lies within the depth and whose class has no
/// expanded member, and the number of its node. The number that a node is likely to have goes on from place to place.
pub(crate) fn next_open(
    classes: &Classes,
    journal: &Journal,
    from: usize,
    depth: u8,
    likely: &mut u32,
) -> Option<(usize, u32)>
    requires { StandsFor journal.now.host journal.now.entries classes.now }
    ensures found { IfSome result (λ o. IsNextOpen journal.now.host depth journal.now.entries from o.0) }
    ensures node { IfSome result (λ o. IsNodeAt classes.now journal.now.entries o.0 o.1) }
    ensures none { result ≡ None → AreExpanded journal.now.host depth journal.now.entries from
        (length journal.now.entries) }
{
    let entries = journal.entries();
    for place in from..entries.len() {
        if let Some(node) = open_at(classes, entries, place, depth, *likely) {
            return Some((place, node));
        }
        *likely = number_past(*likely, entries, place);
    }
    None
}

// The number that the next node is likely to have, after the entry at a place.
fn number_past(likely: u32, entries: &[Entry], place: usize) -> u32
    requires { place < length entries.now }
{
    number_after(likely, entries[place].answer)
}

// The node of the entry at a place, where it is to be expanded.
fn open_at(
    classes: &Classes,
    entries: &[Entry],
    place: usize,
    depth: u8,
    likely: u32,
) -> Option<u32>
    requires { place < length entries.now }
    ensures tells { TellsOpenAt classes.now entries.now place depth (is_some result) }
    ensures node { IfSome result (λ node. IsNodeAt classes.now entries.now place node) }
{
    open_node(classes, &entries[place], depth, likely)
}

// The node of an entry, where it is to be expanded by the classes of its journal.
fn open_node(classes: &Classes, e: &Entry, depth: u8, likely: u32) -> Option<u32>
    ensures tells { TellsOpen classes.now e.now depth (is_some result) }
    ensures node { IfSome result (λ node. slice_get classes.now.nodes node ≡ Some (Reached e.now.walk)) }
{
    match e.answer {
        Answer::Switch => {
            if e.walk.turns().len() + 1 < usize::from(depth) {
                unexpanded(classes, &e.walk, likely)
            } else {
                None
            }
        }
        _ => None,
    }
}

// The node of a switch, where its class has no expanded member.
fn unexpanded(classes: &Classes, walk: &Walk, likely: u32) -> Option<u32>
    ensures tells { TellsExpanded classes.now walk.now (not (is_some result)) }
    ensures node { IfSome result (λ node. slice_get classes.now.nodes node ≡ Some (Reached walk.now)) }
{
    match classes.node_near(walk, likely) {
        Some(node) => {
            if classes.expanded(classes.class_of(node).class) {
                None
            } else {
                Some(node)
            }
        }
        None => None,
    }
}
