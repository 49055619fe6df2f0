//! What holds of every mapping and of every run: `specs/Laws.antt` and `specs/Runs.antt` have the statements.

ghost use Rattle.run_laws.specs.Laws.{MappingIsOne};
ghost use Rattle.run_laws.specs.Runs.{RoutesAreOne, DoingIsOne, RunsAreOne, RunsJoin, RunsSplit, FirstRunsArePart};
ghost use Rattle.run_laws.specs.Runs.{TextOfBoth};

/// The same mapping of the same world has one end, one journal, one map and one word.
pub fn one_mapping()
    ensures { MappingIsOne }
{}

/// The routes of a map are one list, the same command of the same session prints and leaves one thing, and so do
/// commands in order.
pub fn one_run()
    ensures routes { RoutesAreOne }
    ensures command { DoingIsOne }
    ensures commands { RunsAreOne }
{}

/// Runs in a row are a run, and a run is split after each of its commands: what the first commands print stands at
/// the beginning.
pub fn runs_in_a_row()
    ensures joined { RunsJoin }
    ensures split { RunsSplit }
    ensures first { FirstRunsArePart }
    ensures text { TextOfBoth }
{}
