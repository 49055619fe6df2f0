//! What a settle is, and that it ends: `specs/Settling.antt` has the statements.

ghost use Rattle.world_laws.specs.Settling.{PassesAreOne, RoundsAreOne, RoundEnds, SettleEnds};
ghost use Rattle.world_laws.specs.Settling.{RoundsAreBounded, ClearRaisesNothing, SettledIsIdle};

/// A round is all expiries and then passes up to the last, with no more of them than injections and packets in limbo
/// allow.
pub fn rounds_of_passes()
    ensures round { RoundEnds }
    ensures one { PassesAreOne }
{}

/// A settle is a clear and then rounds up to the last, with no more of them than fragments and faults allow.
pub fn settles()
    ensures settle { SettleEnds }
    ensures one { RoundsAreOne }
    ensures bound { RoundsAreBounded }
    ensures first_clear { ClearRaisesNothing }
    ensures idle { SettledIsIdle }
{}
