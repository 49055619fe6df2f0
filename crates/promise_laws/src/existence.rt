//! That commands over a fabric have a run: `specs/Existence.antt` has the statements.

ghost use Rattle.promise_laws.specs.Existence.{EachCommandIsDone, RunExists};

/// After every run each command is one deed; so commands over a fabric have a run, and one, whatever
/// is planned.
pub fn runs_exist()
    ensures done { EachCommandIsDone }
    ensures run { RunExists }
{}
