//! What an event does to the counts: `specs/Counts.antt` has the statements.

ghost use Rattle.world_laws.specs.Counts.{InjectionsAreNumbered, InjectionsAreCounted, DropsAreCounted};
ghost use Rattle.world_laws.specs.Counts.{StrikesAreOfInjections, SettleEventRaisesNothing};

/// Injections, drops and strikes are counted where they happen, and nowhere else.
pub fn counts_of_events()
    ensures numbers { InjectionsAreNumbered }
    ensures injections { InjectionsAreCounted }
    ensures drops { DropsAreCounted }
    ensures strikes { StrikesAreOfInjections }
{}

/// No event of a settle raises what a settle's rounds are counted by.
pub fn events_of_settles()
    ensures { SettleEventRaisesNothing }
{}
