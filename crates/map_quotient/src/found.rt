//! The nodes of walks that found something.

ghost use Rattle.std.specs.Prelude.{◌≡◌, None, IfSome};
ghost use Rattle.journal_defs.specs.Tree.Node.{Mapper, Reached};
ghost use Rattle.replicate_merge.specs.Nodes.{nodes_of};
ghost use Rattle.replicate_merge.specs.Ways.{node_at};

use probe::WalkIndex;

/// The walk of a node by its number; none of the mapper's host, which is node 0, and of no node.
pub(crate) fn walk_of(walks: &WalkIndex, node: u32) -> Option<&[i8]>
    ensures mapper { result ≡ None → node_at (nodes_of walks.now) node ≡ Mapper }
    ensures reached { IfSome result (λ w. node_at (nodes_of walks.now) node ≡ Reached w.now) }
{
    if node == 0 || node as usize > walks.len() {
        None
    } else {
        Some(walks.walk(node as usize - 1))
    }
}
