//! A journal that grows to a depth.

use probe::Journal;
use replicate_merge::Classes;

/// The most nodes that a journal keeps.
pub(crate) const NODE_LIMIT: usize = 65536;

/// A journal, its classes, how many nodes it has, and the depth to which it grows.
#[derive(Drop)]
pub(crate) struct Tree {
    pub(crate) journal: Journal,
    pub(crate) classes: Classes,
    pub(crate) nodes: usize,
    pub(crate) depth: u8,
}
