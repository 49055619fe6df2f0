//! The laws of the circuit map: each function's contract is the law, and its body is empty.

ghost use Rattle.circ_laws.specs.Laws.{InsideIsCore, CircuitMapIsCore, FoundIsEnough};
ghost use Rattle.circ_laws.specs.Laws.{TreeIsOne, CircuitMapIsOne, CircuitMapIsMap};

/// Where the depth is at least the most cables in a return walk of a path list, what isn't outside in the map of the
/// whole tree is the core, up to each switch's offset. So the circuit map is.
pub fn circuit_map_is_the_core()
    ensures inside { InsideIsCore }
    ensures whole { CircuitMapIsCore }
{}

/// What a journal found is enough for its map: the entries answered Nothing make no node.
pub fn found_entries_are_enough()
    ensures { FoundIsEnough }
{}

/// The whole tree is asked in one way, and it has one circuit map.
pub fn circuit_maps_are_one()
    ensures tree { TreeIsOne }
    ensures map { CircuitMapIsOne }
{}

/// The circuit map keeps the rules of maps, whatever the depth.
pub fn circuit_maps_are_maps()
    ensures { CircuitMapIsMap }
{}
