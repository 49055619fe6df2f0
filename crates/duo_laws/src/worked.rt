//! What is polled before and after a restart, worked out: `specs/Examples.antt` has the statements.

ghost use Rattle.duo_laws.specs.Examples.{OneIsPolledAndOneWaits, RestartTakesWhatWaits};

/// Of two messages one is polled and one waits; a restart takes the second, and the next incarnation gets a third.
pub fn polls_and_a_restart()
    ensures waits { OneIsPolledAndOneWaits }
    ensures lost { RestartTakesWhatWaits }
{}
