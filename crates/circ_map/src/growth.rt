//! The whole tree, asked in walk order.

ghost use Rattle.std.specs.Prelude.{◌≡◌, ◌≤◌, ◌<◌, length, true, false, Ok, IfOk, OnOk};
ghost use Rattle.circ_map.specs.Growing.{IsAsking, IsPassed, IsWhole};

use crate::asking::ask;
use crate::expanding::expand;
use crate::prober::CircProber;
use crate::tree::Tree;
use mapper::empty_walk;
use std::alloc::{AllocError, Global};

/// Asks the whole tree to a depth in walk order, and answers whether it kept the limit of nodes. What was found lies
/// in the order of the asks, so it is also the queue of the switches that are to be expanded.
pub(crate) fn grow<P: CircProber>(
    alloc: Global,
    p: &mut P,
    tree: &mut Tree,
    depth: u8,
) -> Result<bool, AllocError>
    requires shallow { depth ≤ 32 }
    requires asking { IsAsking (P.fabric p.old) (P.mapper p.old) depth tree.old.found.items tree.old.asks 0 0 }
    ensures whole { result ≡ Ok true → IsWhole (P.fabric p.old)
        (P.mapper p.old) depth tree.new.found.items tree.new.asks }
    ensures passed { result ≡ Ok false → IsPassed (P.fabric p.old) (P.mapper p.old) depth tree.new.asks }
    ensures host { OnOk result (tree.new.host ≡ tree.old.host) }
    ensures same_fabric { P.fabric p.new ≡ P.fabric p.old }
    ensures same_mapper { P.mapper p.new ≡ P.mapper p.old }
{
    let mut at = 0;
    while at < found_count(tree) {
        if !expand(alloc, p, tree, depth, at)? {
            return Ok(false);
        }
        at += 1;
    }
    Ok(true)
}

// How many entries were found.
fn found_count(tree: &Tree) -> usize
    ensures { result ≡ length tree.now.found.items }
{
    tree.found.len()
}

/// The tree after its first ask, the empty walk.
pub(crate) fn started<P: CircProber>(
    alloc: Global,
    p: &mut P,
    depth: u8,
) -> Result<Tree, AllocError>
    ensures host { IfOk result (λ t. t.host ≡ P.mapper p.old) }
    ensures asking { IfOk result (λ t. IsAsking (P.fabric p.old) (P.mapper p.old) depth t.found.items t.asks 0 0) }
    ensures same_fabric { P.fabric p.new ≡ P.fabric p.old }
    ensures same_mapper { P.mapper p.new ≡ P.mapper p.old }
{
    let mut tree = Tree {
        host: p.host(),
        found: Vec::new(alloc),
        asks: 0,
    };
    let walk = empty_walk(alloc)?;
    let _more = ask(alloc, p, &mut tree, &walk)?;
    Ok(tree)
}
