//! What isn't possible changes nothing, and comes exactly in its cases: `specs/Idle.antt` has the statements.

ghost use Rattle.world_laws.specs.Idle.{IdleExactlyThere, IdleChangesNothing};

/// An event is idle exactly where it isn't possible, and then changes nothing.
pub fn idle_events()
    ensures cases { IdleExactlyThere }
    ensures still { IdleChangesNothing }
{}
