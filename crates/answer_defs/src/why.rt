//! What fails at a line.

/// What fails at the first line of a report that isn't right.
#[derive(Clone, Copy, Debug, PartialEq, Eq)]
pub enum Why {
    /// The line isn't of a form that its command gives, or it is missing, or nothing is due.
    Form,
    /// The map isn't the mapper's part of the fabric.
    Map,
    /// The route doesn't lead, or one is missing, or there is no complete map.
    Route,
    /// The ranks don't rise along every route.
    Rank,
    /// The message isn't the next of those that were sent, or its length isn't the number of its bytes.
    Message,
    /// A token isn't where the lines before say that it is, or a close counts other tokens than are out.
    Token,
}
