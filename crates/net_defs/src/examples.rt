//! Worked examples, computed by the prover: each function's contract is the example, and its body is empty.

ghost use Rattle.std.specs.Prelude.{◌≡◌, ◌∷◌, [], pos, negsuc};
ghost use Rattle.net_defs.specs.Network.{far, IsFabric};
ghost use Rattle.net_defs.specs.Route.{place, answer, channels_of};
ghost use Rattle.net_defs.specs.Examples.{two_hosts, self_cabled, host_end, switch_end};
ghost use Rattle.net_defs.specs.declared.place.Place.{Place};
ghost use Rattle.net_defs.specs.declared.place.Answer.{Answer};

/// Two hosts at ports 2 and 5 of a switch of eight ports.
pub fn places_of_two_hosts()
    ensures is_a_fabric { IsFabric two_hosts }
    ensures far_from_the_host { far two_hosts (host_end 0) ≡ Some (switch_end 0 2) }
    ensures far_from_the_switch { far two_hosts (switch_end 0 2) ≡ Some (host_end 0) }
    ensures no_cable { far two_hosts (switch_end 0 3) ≡ None }
    ensures to_the_other_host { place two_hosts 0 (pos 3 ∷ []) ≡ Place.Host 1 }
    ensures to_the_switch { place two_hosts 0 [] ≡ Place.Switch 0 2 }
    ensures back_to_the_first { place two_hosts 0 (pos 0 ∷ []) ≡ Place.Host 0 }
    ensures outside_the_switch { place two_hosts 0 (pos 6 ∷ []) ≡ Place.Nothing }
    ensures below_the_switch { place two_hosts 0 (negsuc 2 ∷ []) ≡ Place.Nothing }
    ensures without_cable { place two_hosts 0 (pos 4 ∷ []) ≡ Place.Nothing }
    ensures past_a_host { place two_hosts 0 (pos 3 ∷ pos 1 ∷ []) ≡ Place.Nothing }
    ensures told_of_the_switch { answer two_hosts 0 [] ≡ Answer.Switch }
    ensures crossed { channels_of two_hosts 0 (pos 3 ∷ []) ≡ 0 ∷ 3 ∷ [] }
    ensures crossed_until_stuck { channels_of two_hosts 0 (pos 4 ∷ pos 1 ∷ []) ≡ 0 ∷ [] }
{}

/// A switch that is cabled to itself: the walk enters again the channel that it leaves.
pub fn places_of_the_self_cabled_switch()
    ensures is_a_fabric { IsFabric self_cabled }
    ensures back_to_the_same_port { place self_cabled 0 (pos 3 ∷ pos 1 ∷ negsuc 0 ∷ []) ≡ Place.Switch 1 2 }
    ensures crossed { channels_of self_cabled 0 (pos 3 ∷ pos 1 ∷ negsuc 0 ∷ []) ≡ 0 ∷ 4 ∷ 6 ∷ 6 ∷ [] }
{}
