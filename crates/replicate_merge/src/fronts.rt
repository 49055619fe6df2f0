//! What stands in front of a walk's last turn.

ghost use Rattle.std.specs.Prelude.{◌≡◌, ◌+◌, ◌<◌, ◌^◌, length};
ghost use Rattle.replicate_merge.specs.Between.{IsFrontOf};
ghost use Rattle.replicate_merge.specs.Nodes.{nodes_of};

use net_defs::Answer;
use probe::WalkIndex;

/// What stands in front of a walk's last turn.
#[derive(Clone, Copy, Debug)]
pub enum Front {
    /// The walk has no turn: the mapper's host is in front of it.
    Mapper,
    /// A node, and the turn by which the walk leaves it.
    Node(u32, i8),
    /// No node of these.
    Missing,
}

/// What stands in front of a walk, among the nodes of these. A place where its walk is likely to stand is looked at
/// first.
pub(crate) fn front_of(walks: &WalkIndex, walk: &[i8], likely: u32) -> Front
    requires { length walks.now + 1 < 2 ^ 32 }
    ensures { IsFrontOf (nodes_of walks.now) walk.now result }
{
    let Some((turn, front)) = walk.split_last() else {
        return Front::Mapper;
    };
    match walks.find_near(front, likely as usize) {
        Some(at) => Front::Node((at + 1) as u32, *turn),
        None => Front::Missing,
    }
}

/// Whether a front is no node whose walk stands at a place or behind it.
pub(crate) fn is_before(front: Front, place: u32) -> bool {
    match front {
        Front::Mapper => false,
        Front::Node(node, _) => node <= place,
        Front::Missing => true,
    }
}

/// The number that the next node is likely to have, after an answer to which one had this number.
pub fn number_after(likely: u32, answer: Answer) -> u32 {
    match answer {
        Answer::Host(_) | Answer::Switch => likely.saturating_add(1),
        Answer::Nothing => likely,
    }
}
