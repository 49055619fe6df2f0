//! The laws of circuit answers: each function's contract is the law, and its body is empty.

ghost use Rattle.circ_laws.specs.ClassLaws.{CircuitTellsTrueOrNothing, CircuitMergesAreTrue, GrownTreeIsWhole};
ghost use Rattle.circ_laws.specs.ClassLaws.{CoreVertexHasOneClass};

/// A circuit answer differs from the truth only as Nothing. So every merge stays true.
pub fn circuit_answers_tell_true_or_nothing()
    ensures told { CircuitTellsTrueOrNothing }
    ensures merged { CircuitMergesAreTrue }
{}

/// A tree that was asked in order, until every walk of it was asked, is the whole tree.
pub fn grown_trees_are_whole()
    ensures { GrownTreeIsWhole }
{}

/// Where the depth is at least the most cables in a return walk of a path list, two nodes that stand at one vertex of
/// the core are replicates.
pub fn core_vertices_have_one_class()
    ensures { CoreVertexHasOneClass }
{}
