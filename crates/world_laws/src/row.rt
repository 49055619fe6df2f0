//! A drain, a clear and a settle are events in a row: `specs/Reached.antt` has the statements.

ghost use Rattle.world_laws.specs.Reached.{DrainIsRow, ClearIsRow, SettleIsRow, NeverStuckHasNoResets};
ghost use Rattle.world_laws.specs.Reached.{DrainKeepsCables, ClearKeepsCables, DrainKeeps, ClearKeeps, SettleKeeps};

/// A drain, a clear and a settle are events of their kinds, in a row.
pub fn rows_of_events()
    ensures drain { DrainIsRow }
    ensures clear { ClearIsRow }
    ensures settle { SettleIsRow }
{}

/// A settle resets a channel only where links were stuck in it.
pub fn resets_of_settles()
    ensures { NeverStuckHasNoResets }
{}

/// So they leave a world with its connections in order, and plug nothing; a drain and a clear leave the cables.
pub fn kept_by_rows()
    ensures drain_cables { DrainKeepsCables }
    ensures clear_cables { ClearKeepsCables }
    ensures drain { DrainKeeps }
    ensures clear { ClearKeeps }
    ensures settle { SettleKeeps }
{}
