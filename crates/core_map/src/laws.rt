//! The laws of the core: each function's contract is the law, and its body is empty.

ghost use Rattle.core_map.specs.Laws.{OutsideIsByPaths, BridgesAreByPaths};

/// Outside is what some cable between two switches, taken away, leaves on a side that no path joins to a host; a cable
/// that leaves such a side is a switch bridge. All else is of the core.
pub fn core_is_by_paths()
    ensures outside { OutsideIsByPaths }
    ensures bridges { BridgesAreByPaths }
{}
