//! A worked example of the law: each function's contract is the example, and its body is empty.

ghost use Rattle.net_defs.specs.Examples.{two_hosts};
ghost use Rattle.journal_defs.specs.Examples.{two_hosts_journal};
ghost use Rattle.map_defs.specs.Examples.{two_hosts_map};
ghost use Rattle.circ_defs.specs.Circuit.{IsWholeTree};
ghost use Rattle.circ_defs.specs.CircuitMap.{IsCircuitMap, IsMapOfCore};

/// Two hosts at a switch: the whole tree of 31 asks to a depth of five cables, its circuit map, and that this is the
/// core.
pub fn circuit_map_of_two_hosts()
    ensures tree { IsWholeTree two_hosts 0 5 two_hosts_journal }
    ensures map { IsCircuitMap two_hosts 0 5 two_hosts_journal two_hosts_map }
    ensures core { IsMapOfCore two_hosts 0 two_hosts_map }
{}
