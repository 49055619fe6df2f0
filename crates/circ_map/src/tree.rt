//! The tree of circuit answers, as far as it was asked.

use probe::Entry;

/// The most nodes that are kept, the mapper's host among them.
pub(crate) const NODE_LIMIT: usize = 65536;

/// The host that asks, what was found, in the order of the asks, and how often was asked.
///
/// An answer of Nothing is counted and not kept. No walk is looked up while the tree grows, so what was found is a
/// plain list.
#[derive(Drop)]
pub(crate) struct Tree {
    pub(crate) host: u16,
    pub(crate) found: Vec<Entry>,
    pub(crate) asks: u64,
}
