//! Worked examples, computed by the prover: each function's contract is the example, and its body is empty.

ghost use Rattle.std.specs.Prelude.{◌≡◌, ◌∷◌, [], pos, true, false, length, Some, None};
ghost use Rattle.net_defs.specs.Examples.{two_hosts, host_end, switch_end};
ghost use Rattle.net_defs.specs.Network.{far};
ghost use Rattle.world_defs.specs.History.{first_history, fabric_now, fabric_at, fabric_left, may_plug, is_left};
ghost use Rattle.world_defs.specs.Crossed.{leaving, channels_at, channels_by, is_new, is_cut, life_tail, life_head};
ghost use Rattle.world_defs.specs.Crossed.{life_channels, is_standing, pulled_at};
ghost use Rattle.world_defs.specs.CableExamples.{without_b, with_b, accepted_b};

/// Two hosts at a switch, before any change.
pub fn cables_of_two_hosts()
    ensures fabric { fabric_now (first_history two_hosts) ≡ two_hosts }
    ensures channels { life_channels (first_history two_hosts) ≡ 4 }
    ensures from_host_b { leaving (first_history two_hosts) (host_end 1) ≡ Some 2 }
    ensures crossed { channels_at (first_history two_hosts) 0 0 (pos 3 ∷ []) ≡ 0 ∷ 3 ∷ [] }
    ensures free_ports { may_plug (first_history two_hosts) (switch_end 0 0) (switch_end 0 1) ≡ true }
    ensures used_port { may_plug (first_history two_hosts) (switch_end 0 0) (switch_end 0 2) ≡ false }
    ensures one_port { may_plug (first_history two_hosts) (switch_end 0 0) (switch_end 0 0) ≡ false }
    ensures no_port { may_plug (first_history two_hosts) (switch_end 0 0) (switch_end 0 8) ≡ false }
{}

/// The cable of host b is pulled, and another is plugged at the same two ports: it has channels of its own.
pub fn pulled_and_plugged()
    ensures before { fabric_at with_b 0 ≡ two_hosts }
    ensures between { far (fabric_at with_b 1) (switch_end 0 5) ≡ None }
    ensures now { far (fabric_now with_b) (switch_end 0 5) ≡ Some (host_end 1) }
    ensures left { far (fabric_left with_b) (switch_end 0 5) ≡ None }
    ensures none_leaves { leaving without_b (switch_end 0 5) ≡ None }
    ensures pulled_once { pulled_at without_b (switch_end 0 5) ≡ without_b }
    ensures new_leaves { leaving with_b (switch_end 0 5) ≡ Some 5 }
    ensures tail { life_tail with_b 3 ≡ Some (switch_end 0 5) }
    ensures head { life_head with_b 3 ≡ Some (host_end 1) }
    ensures pulled { is_standing with_b 3 ≡ false }
    ensures crossed_before { channels_at with_b 0 0 (pos 3 ∷ []) ≡ 0 ∷ 3 ∷ [] }
    ensures crossed_now { channels_at with_b 2 0 (pos 3 ∷ []) ≡ 0 ∷ 5 ∷ [] }
    ensures crossed_left { channels_by with_b (is_left with_b) (Some (host_end 0)) (pos 3 ∷ []) ≡ 0 ∷ [] }
    ensures cut { is_cut with_b 3 ≡ true }
    ensures uncut { is_cut with_b 0 ≡ false }
    ensures new { is_new with_b 5 ≡ true }
    ensures accepted { is_new accepted_b 5 ≡ false }
    ensures accepted_left { far (fabric_left accepted_b) (switch_end 0 5) ≡ Some (host_end 1) }
{}
