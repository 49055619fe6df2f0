//! The law: `specs/Runs.antt` has the statement.

ghost use Rattle.injection_bounds.specs.Runs.{RunsInjectFew};

/// Every run injects no more packets than 2^26 for each of its commands.
pub fn runs_inject_few()
    ensures { RunsInjectFew }
{}
