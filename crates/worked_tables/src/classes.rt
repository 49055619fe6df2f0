//! The lines of the journals whose classes are compared.

ghost use Rattle.std.specs.Prelude.{◌<◌, length};

use crate::comparing::{Comparison, compared_on};
use crate::fabrics::{Grown, JOURNALS};
use fabric_file::read_fabric;
use std::alloc::{AllocError, Global};
use std::io;

/// Prints a line for each journal.
pub fn print_classes(rt: &HostRuntime) -> io::Result<()> {
    for grown in JOURNALS {
        let compared = compared_of(rt.alloc(), &grown)?;
        print_line(rt, &grown, compared)?;
    }
    Ok(())
}

// How the classes of a fabric's journal compare; none where the fabric has no journal.
fn compared_of(alloc: Global, grown: &Grown) -> Result<Option<Comparison>, AllocError> {
    let text = grown.text.as_bytes();
    if text.len() > 1000 {
        return Ok(None);
    }
    match read_fabric(alloc, text) {
        Ok(read) => compared_on(alloc, &read.fabric, grown.depth),
        Err(_) => Ok(None),
    }
}

// The line of a journal.
fn print_line(rt: &HostRuntime, grown: &Grown, compared: Option<Comparison>) -> io::Result<()> {
    let Some(it) = compared else {
        return println!(rt; "{} to depth {}: none", grown.name, grown.depth);
    };
    println!(rt;
        "{} to depth {}: {} asks, agreed after {}, at once after {}; {} nodes, {} pairs, {} expanded",
        grown.name, grown.depth, it.asks, it.agreed, it.at_once, it.nodes, it.pairs, it.expanded
    )
}
