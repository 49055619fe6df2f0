//! Whether a journal is closed. It takes no memory.

ghost use Rattle.std.specs.Prelude.{◌≡◌, ◌↔◌, true, IsTrue};
ghost use Rattle.journal_defs.specs.Tree.{IsSwitchNode};
ghost use Rattle.journal_defs.specs.Tree.Node.{Reached};
ghost use Rattle.journal_defs.specs.Growth.{HasExpanded, IsClosed};
ghost use Rattle.replicate_merge.specs.Table.{StandsFor};

use net_defs::{Answer, Walk};
use probe::Journal;
use replicate_merge::{Classes, number_after};

/// Whether each class of switches has an expanded member: a node whose 30 turns are all asked. The classes stand for
/// the journal.
pub fn closed(j: &Journal, c: &Classes) -> bool
    requires { StandsFor j.now.host j.now.entries c.now }
    ensures { IsTrue result ↔ IsClosed j.now.host j.now.entries }
{
    let entries = j.entries();
    let mut likely = 1;
    for e in entries {
        if is_switch(e.answer) && !has_expanded(j, c, &e.walk, likely) {
            return false;
        }
        likely = number_after(likely, e.answer);
    }
    true
}

// Whether a switch was found.
fn is_switch(answer: Answer) -> bool
    ensures { IsTrue result ↔ (answer ≡ Answer.Switch) }
{
    match answer {
        Answer::Switch => true,
        Answer::Host(_) | Answer::Nothing => false,
    }
}

// Whether the class of a walk's node has an expanded member.
fn has_expanded(j: &Journal, c: &Classes, walk: &Walk, likely: u32) -> bool
    requires { StandsFor j.now.host j.now.entries c.now }
    ensures { IsTrue result ↔ HasExpanded j.now.host j.now.entries (Reached walk.now) }
{
    let _ = j;
    match c.node_near(walk, likely) {
        Some(node) => c.expanded(c.class_of(node).class),
        None => false,
    }
}
