//! The laws of maps: each function's contract is the law, and its body is empty.

ghost use Rattle.map_defs.specs.Laws.{
  FarIsCabled,
  LevelsAreDistances,
  PlacesAreAnOrder,
  SamenessIsEquivalence,
  SameMapIsRight,
  RanksCertify,
  CertificateLeavesNoCycle,
  RisingLeavesNoCycle,
};

/// What a port of a map leads to is what a cable joins to it.
pub fn ports_have_one_cable()
    ensures { FarIsCabled }
{}

/// Sameness up to offset is an equivalence, and what is the same as a right map is right.
pub fn sameness_is_an_equivalence()
    ensures equivalence { SamenessIsEquivalence }
    ensures right { SameMapIsRight }
{}

/// In a connected map the level of a vertex is its distance from the root; and each vertex has a place of its own.
pub fn places_are_by_distance()
    ensures levels { LevelsAreDistances }
    ensures places { PlacesAreAnOrder }
{}

/// The ranks by an order certify the least legal routes.
pub fn ranks_certify_least_routes()
    ensures { RanksCertify }
{}

/// Ranks that rise along every route leave no cycle of dependencies.
pub fn rising_ranks_leave_no_cycle()
    ensures certified { CertificateLeavesNoCycle }
    ensures rising { RisingLeavesNoCycle }
{}
