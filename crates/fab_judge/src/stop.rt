//! Why the reading of a report ends early.

use judge_defs::Why;

/// Why lines are no answer.
#[derive(Clone, Copy)]
pub(crate) enum Unread {
    /// The line of this number is out of form, or missing.
    At(u32),
    /// Memory ran out.
    NoMemory,
}

/// Why a report isn't judged yes.
#[derive(Clone, Copy)]
pub(crate) enum Stop {
    /// The line of this number fails.
    Fails(u32, Why),
    /// Memory ran out.
    NoMemory,
}
