//! The order of nodes.

ghost use Rattle.std.specs.Prelude.{◌≡◌, ◌+◌, ◌<◌, length};
ghost use Rattle.journal_defs.specs.Tree.{node_below};
ghost use Rattle.replicate_merge.specs.Ways.{node_at};
ghost use Rattle.replicate_merge.specs.Nodes.{nodes_of};

use crate::order::is_below;
use probe::WalkIndex;

/// Whether a node stands before another, by their numbers.
pub(crate) fn is_node_below(walks: &WalkIndex, m: u32, n: u32) -> bool
    requires first { m < length walks.now + 1 }
    requires second { n < length walks.now + 1 }
    ensures { result ≡ node_below (node_at (nodes_of walks.now) m) (node_at (nodes_of walks.now) n) }
{
    if n == 0 {
        return false;
    }
    m == 0 || is_below(walks.walk(m as usize - 1), walks.walk(n as usize - 1))
}
