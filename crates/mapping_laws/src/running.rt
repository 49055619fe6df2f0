//! What holds along every run: `specs/Runs.antt`, `specs/Circuits.antt` and `specs/Held.antt` have the statements.

ghost use Rattle.mapping_laws.specs.Runs.{RunKeepsWorld, CompleteMapsAreTrue, DeepMapsAreComplete};
ghost use Rattle.mapping_laws.specs.Circuits.{CircuitMapsAreTrue, CircuitIsTold};
ghost use Rattle.mapping_laws.specs.Held.{RunHoldsRight};

/// A run over a fabric keeps a world that began with it.
pub fn kept_by_runs()
    ensures { RunKeepsWorld }
{}

/// Every map that a run prints under the word complete was the mapper's part of the fabric before its command, and a
/// deep map of a quiet fabric says so.
pub fn maps_of_runs()
    ensures complete { CompleteMapsAreTrue }
    ensures deep { DeepMapsAreComplete }
{}

/// Every map of circuit links that a run prints was the circuit map of the fabric to its depth before its command, and
/// where that was deep enough it was the core. There is always something to report of the links.
pub fn circuit_maps_of_runs()
    ensures told { CircuitMapsAreTrue }
    ensures always { CircuitIsTold }
{}

/// A run holds a map that was right where it says complete; the routes that it computed from one were right when the
/// map began, and those that it adopted when it adopted them.
pub fn held_by_runs()
    ensures { RunHoldsRight }
{}
