//! What the run of a script prints and installs: a law is a function without parameters, whose contract is the law
//! and whose body is empty.

ghost use Rattle.promise_laws.specs.Scripts.{ScriptMapsAreTrue, DeepMapsOfScriptsAreComplete, ScriptIsReached};
ghost use Rattle.promise_laws.specs.Scripts.{ScriptHasNoCycle};

/// Every map that the run of a script prints under the word complete is the mapper's part of the fabric, and a deep
/// map of a quiet fabric says so.
pub fn maps_of_scripts()
    ensures complete { ScriptMapsAreTrue }
    ensures deep { DeepMapsOfScriptsAreComplete }
{}

/// The run of a script is acts that may happen, so the channels of the routes that it installed wait in no cycle.
pub fn acts_of_scripts()
    ensures reached { ScriptIsReached }
    ensures no_cycle { ScriptHasNoCycle }
{}
