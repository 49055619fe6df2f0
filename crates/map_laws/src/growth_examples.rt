//! Worked examples, checked by the prover: each function's contract is the example, and its body is empty.

ghost use Rattle.std.specs.Prelude.{◌≡◌};
ghost use Rattle.net_defs.specs.Network.{IsFabric};
ghost use Rattle.net_defs.specs.Examples.{two_hosts, self_cabled};
ghost use Rattle.journal_defs.specs.Fabrics.{one_cable, parallel, line, lonely_ring, ring_of_four};
ghost use Rattle.journal_defs.specs.Examples.{one_cable_journal, two_hosts_journal};
ghost use Rattle.journal_defs.specs.Truth.{IsTrueJournal};
ghost use Rattle.journal_defs.specs.Growth.{IsGrown, IsClosed};
ghost use Rattle.journal_defs.specs.Depth.{EachSwitchHasAHost, IsSmallEnough, enough_depth};
ghost use Rattle.map_laws.specs.Laws.{EndsClosed};
ghost use Rattle.map_laws.specs.GrowthExamples.{looped, unrolled, looped_journal, Closes, StaysOpen};

/// Two hosts on one cable: a depth of 2 is sure to suffice.
pub fn depth_of_one_cable()
    ensures enough { enough_depth one_cable 0 ≡ 2 }
    ensures small { IsSmallEnough one_cable 0 }
    ensures closed { EndsClosed 0 2 one_cable_journal }
{}

/// Two hosts at a switch: a depth of 4 suffices, and a depth of 32 gives the same journal.
pub fn depth_of_two_hosts()
    ensures enough { enough_depth two_hosts 0 ≡ 4 }
    ensures hosts { EachSwitchHasAHost two_hosts 0 }
    ensures closed { EndsClosed 0 4 two_hosts_journal }
    ensures deeper { IsGrown 0 32 two_hosts_journal }
{}

/// One host at a switch that is cabled to itself: at depth 2 its journal is also that of three switches, and nothing
/// tells which.
pub fn depth_of_a_loop()
    ensures enough { enough_depth looped 0 ≡ 3 }
    ensures a_fabric { IsFabric looped }
    ensures another { IsFabric unrolled }
    ensures true_of_one { IsTrueJournal looped 0 looped_journal }
    ensures true_of_the_other { IsTrueJournal unrolled 0 looped_journal }
    ensures grown { IsGrown 0 2 looped_journal }
    ensures not_closed { ¬ IsClosed 0 looped_journal }
    ensures closed_one_deeper { Closes looped 0 3 }
{}

/// A ring of four switches with one host: to depth 4 nothing tells it from a line of seven, to depth 7 its journal is
/// closed.
pub fn depth_of_the_ring()
    ensures enough { enough_depth lonely_ring 0 ≡ 7 }
    ensures closed { Closes lonely_ring 0 7 }
    ensures not_closed { StaysOpen lonely_ring 0 4 }
{}

/// More hosts make less depth suffice.
pub fn depths_that_suffice()
    ensures ring_with_hosts { (enough_depth ring_of_four 0 ≡ 6) × Closes ring_of_four 0 6 }
    ensures in_a_line { (enough_depth line 0 ≡ 7) × Closes line 0 7 }
    ensures two_cables { (enough_depth parallel 0 ≡ 5) × Closes parallel 0 5 }
    ensures self_cabled_switch { (enough_depth self_cabled 0 ≡ 5) × Closes self_cabled 0 5 }
{}
