//! One ask.

ghost use Rattle.std.specs.Prelude.{◌≡◌, ◌+◌, ◌<◌, ◌^◌, true, length, IfOk, OnOk};
ghost use Rattle.journal_defs.specs.Tree.{is_found};
ghost use Rattle.circ_map.specs.Growing.{goes_on, kept_after, told};

use crate::prober::CircProber;
use crate::tree::{NODE_LIMIT, Tree};
use net_defs::{Answer, Walk};
use probe::Entry;
use std::alloc::{AllocError, Global};

/// Asks a walk, and keeps what it finds; answers whether one more node may be found. What was found alone takes memory.
pub(crate) fn ask<P: CircProber>(
    alloc: Global,
    p: &mut P,
    tree: &mut Tree,
    walk: &Walk,
) -> Result<bool, AllocError>
    requires few { tree.old.asks < 2 ^ 32 }
    ensures goes_on { IfOk result (λ more. more ≡ goes_on tree.old.found.items
        (told (P.fabric p.old) (P.mapper p.old) walk.now)) }
    ensures found { OnOk result (tree.new.found.items
        ≡ kept_after tree.old.found.items (told (P.fabric p.old) (P.mapper p.old) walk.now)) }
    ensures host { OnOk result (tree.new.host ≡ tree.old.host) }
    ensures counted { OnOk result (tree.new.asks ≡ tree.old.asks + 1) }
    ensures same_fabric { P.fabric p.new ≡ P.fabric p.old }
    ensures same_mapper { P.mapper p.new ≡ P.mapper p.old }
{
    let answer = p.ask(walk)?;
    tree.asks += 1;
    if !is_found(answer) {
        return Ok(true);
    }
    let walk = walk.copied(alloc)?;
    keep(tree, Entry { walk, answer })
}

// Keeps what was found, unless as many nodes as are kept were found before it: then it answers so.
fn keep(tree: &mut Tree, e: Entry) -> Result<bool, AllocError>
    requires { is_found e.answer ≡ true }
    ensures goes_on { IfOk result (λ more. more ≡ goes_on tree.old.found.items e) }
    ensures found { OnOk result (tree.new.found.items ≡ kept_after tree.old.found.items e) }
    ensures host { OnOk result (tree.new.host ≡ tree.old.host) }
    ensures counted { OnOk result (tree.new.asks ≡ tree.old.asks) }
{
    if tree.found.len() > NODE_LIMIT - 2 {
        return Ok(false);
    }
    tree.found.push(e)?;
    Ok(true)
}

// Whether a host or a switch was found.
fn is_found(answer: Answer) -> bool
    ensures { result ≡ is_found answer }
{
    match answer {
        Answer::Host(_) | Answer::Switch => true,
        Answer::Nothing => false,
    }
}
