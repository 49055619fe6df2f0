//! What acts a run is.

ghost use Rattle.run_laws.specs.Acts.{RunIsReached, RunHasNoCycle};

/// Acts that may happen lead to the world of every run, so the channels of the installed routes wait in no cycle.
pub fn acts_of_runs()
    ensures reached { RunIsReached }
    ensures no_cycle { RunHasNoCycle }
{}
