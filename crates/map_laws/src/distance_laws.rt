//! The laws of the distances D and Q: each function's contract is the law, and its body is empty.

ghost use Rattle.map_laws.specs.Distances.{FarthestIsReached, HostDistanceIsReached};

/// D is no greater than it has to be: some vertex of the mapper's part is as far. That none is farther is a law of
/// journals.
pub fn farthest_is_reached()
    ensures { FarthestIsReached }
{}

/// Q is no greater than it has to be: some switch of the mapper's part has no host nearer, unless Q is 0. That each
/// has one within Q is a law of journals.
pub fn host_distance_is_reached()
    ensures { HostDistanceIsReached }
{}
