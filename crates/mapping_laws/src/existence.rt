//! The laws of existence: each function's contract is the law, and its body is empty.

ghost use Rattle.mapping_laws.specs.Trees.{CircuitMapExists, TreeExists, WithoutOutsideExists};
ghost use Rattle.mapping_laws.specs.Maps.{ClosedIsDecided, LeastNodesExist, QuotientExists};
ghost use Rattle.mapping_laws.specs.Routes.{RoutesExist};

/// A journal whose found answers are true has a least node for each class of nodes, and a map; and it is closed or
/// isn't.
pub fn journal_has_a_map()
    ensures least_nodes { LeastNodesExist }
    ensures quotient { QuotientExists }
    ensures closed_or_not { ClosedIsDecided }
{}

/// The asking of a tree ends, each map has one without what is outside, and so a whole tree has a circuit map.
pub fn tree_has_a_circuit_map()
    ensures tree { TreeExists }
    ensures without_outside { WithoutOutsideExists }
    ensures circuit_map { CircuitMapExists }
{}

/// A connected map has the least legal route between each two of its hosts.
pub fn connected_map_has_routes()
    ensures { RoutesExist }
{}
