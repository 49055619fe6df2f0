//! One entry of a journal.

use net_defs::{Answer, Walk};

/// A walk that was asked, with its answer.
#[derive(Debug, Drop)]
pub struct Entry {
    /// The turns from the mapper.
    pub walk: Walk,
    /// What the mapper was told of the walk's end.
    pub answer: Answer,
}
