//! What a judge says of a report.

use judge_defs::Why;

/// Whether a report is right.
#[derive(Clone, Copy, Debug, PartialEq, Eq)]
pub enum Verdict {
    /// All that is judged holds.
    Yes,
    /// Something fails.
    No {
        /// The first line at which something fails, from 1, over the whole input.
        line: u32,
        /// What fails there.
        why: Why,
    },
}
