//! What an ask does and leaves: `specs/Row.antt` and `specs/Kept.antt` have the statements.

ghost use Rattle.ask_laws.specs.Row.{AskIsEvents, AskEndsIdle, AskInjectsFew};
ghost use Rattle.ask_laws.specs.Kept.{AskKeeps, CanAskAgain};

/// An ask is events in a row, with three injections at most for each try, and leaves idle links.
pub fn rows_of_asks()
    ensures events { AskIsEvents }
    ensures idle { AskEndsIdle }
    ensures injections { AskInjectsFew }
{}

/// An ask changes no table, no connection and no port, and the mapper can ask again after it.
pub fn kept_by_asks()
    ensures kept { AskKeeps }
    ensures again { CanAskAgain }
{}
