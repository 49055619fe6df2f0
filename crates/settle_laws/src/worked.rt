//! Two settles, worked out: `specs/Examples.antt` has the statements.

ghost use Rattle.settle_laws.specs.Examples.{LostWorldCanSettle, LostFrameIsSentAgain, BareWorldCanSettle};
ghost use Rattle.settle_laws.specs.Examples.{MessageWaitsForToken};

/// A settle sends a lost frame again, and gets its message across.
pub fn one_lost_frame()
    ensures premise { LostWorldCanSettle }
    ensures settled { LostFrameIsSentAgain }
{}

/// A message for which no token was provided waits, after a settle too.
pub fn no_token_waits()
    ensures premise { BareWorldCanSettle }
    ensures settled { MessageWaitsForToken }
{}
