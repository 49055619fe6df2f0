//! Worked examples, computed by the prover: each function's contract is the example, and its body is empty.

ghost use Rattle.std.specs.Prelude.{◌≡◌, ◌∷◌, [], pos, negsuc, true, false};
ghost use Rattle.net_defs.specs.Network.{IsFabric};
ghost use Rattle.net_defs.specs.Examples.{two_hosts, self_cabled};
ghost use Rattle.net_defs.specs.Route.{place};
ghost use Rattle.net_defs.specs.declared.place.Place.{Place};
ghost use Rattle.net_defs.specs.declared.place.Answer.{Answer};
ghost use Rattle.journal_defs.specs.Fabrics.{one_cable};
ghost use Rattle.journal_defs.specs.Examples.{one_cable_journal};
ghost use Rattle.circ_defs.specs.Circuit.{are_apart, cable_of, held_place, circuit_place, circuit_answer};
ghost use Rattle.circ_defs.specs.Circuit.{IsCircuitJournal, IsWholeTree};
ghost use Rattle.circ_defs.specs.Asking.{IsTreeGrowing, IsTreeEnded};
ghost use Rattle.circ_defs.specs.Ways.{IsWay, cables_on};
ghost use Rattle.circ_defs.specs.PathList.{IsPathList, return_walk, cables_of, most_back};
ghost use Rattle.circ_defs.specs.Cores.{ArePathsOfCore};
ghost use Rattle.circ_defs.specs.Examples.{loop, loop_ears, round_loop, two_hosts_ears};

/// Two hosts at a switch: a host is reached over both directions of one cable, a switch isn't.
pub fn circuit_places_of_two_hosts()
    ensures apart { are_apart (0 ∷ 3 ∷ []) ≡ true }
    ensures twice { are_apart (0 ∷ 3 ∷ 0 ∷ []) ≡ false }
    ensures first_cable { cable_of 1 ≡ 0 }
    ensures second_cable { cable_of 2 ≡ 1 }
    ensures to_the_other_host { circuit_place two_hosts 0 (pos 3 ∷ []) ≡ Place.Host 1 }
    ensures back_to_the_first { circuit_place two_hosts 0 (pos 0 ∷ []) ≡ Place.Host 0 }
    ensures to_the_switch { circuit_place two_hosts 0 [] ≡ Place.Switch 0 2 }
    ensures host_over_one_cable { held_place (0 ∷ 1 ∷ []) (Place.Host 0) ≡ Place.Host 0 }
    ensures switch_over_one_cable { held_place (0 ∷ 1 ∷ []) (Place.Switch 0 2) ≡ Place.Nothing }
    ensures told_of_the_switch { circuit_answer two_hosts 0 [] ≡ Answer.Switch }
{}

/// A switch that is cabled to itself, behind another: round the loop and back, the walk meets itself on the cable
/// between the two.
pub fn circuit_places_of_the_self_cabled_switch()
    ensures round_once { circuit_place self_cabled 0 (pos 3 ∷ pos 1 ∷ []) ≡ Place.Switch 1 2 }
    ensures back_in_truth { place self_cabled 0 (pos 3 ∷ pos 1 ∷ negsuc 1 ∷ []) ≡ Place.Switch 0 3 }
    ensures back_is_nothing { circuit_place self_cabled 0 (pos 3 ∷ pos 1 ∷ negsuc 1 ∷ []) ≡ Place.Nothing }
    ensures told_nothing { circuit_answer self_cabled 0 (pos 3 ∷ pos 1 ∷ negsuc 1 ∷ []) ≡ Answer.Nothing }
    ensures around_again { circuit_place self_cabled 0 (pos 3 ∷ pos 1 ∷ negsuc 0 ∷ []) ≡ Place.Nothing }
{}

/// Two hosts on one cable: the whole tree is one ask, whatever the depth.
pub fn tree_of_one_cable()
    ensures circuit { IsCircuitJournal one_cable 0 one_cable_journal }
    ensures whole { IsWholeTree one_cable 0 5 one_cable_journal }
    ensures growing { IsTreeGrowing one_cable 0 5 one_cable_journal }
    ensures ended { IsTreeEnded 5 one_cable_journal }
{}

/// A host at a switch that is cabled to itself: the paths of its core, and a return walk of three cables.
pub fn paths_of_a_loop()
    ensures fabric { IsFabric loop }
    ensures paths { ArePathsOfCore loop 0 loop_ears }
    ensures cables { cables_of loop_ears ≡ 1 ∷ 0 ∷ [] }
    ensures deep { most_back loop_ears ≡ 3 }
{}

/// Two hosts at a switch: the way from host a to host b is the return walk of host b's cable.
pub fn paths_of_two_hosts()
    ensures paths { ArePathsOfCore two_hosts 0 two_hosts_ears }
    ensures cables { cables_of two_hosts_ears ≡ 1 ∷ 0 ∷ [] }
    ensures deep { most_back two_hosts_ears ≡ 2 }
{}
