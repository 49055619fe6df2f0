//! What the check of a certificate answers, computed by the prover: the contract is the example, and the body is empty.
//! What `rank_cert::check` answers is this by its clause `fault`.

ghost use Rattle.std.specs.Prelude.{◌≡◌, ◌∷◌, [], pos, None, Some};
ghost use Rattle.map_defs.specs.Examples.{two_hosts_map};
ghost use Rattle.rank_cert.specs.Checking.{first_fault};
ghost use Rattle.rank_cert.specs.declared.fault.CheckFault.TheVariants.{BadRoute, NoRank, BadRank};

/// The ranks of two hosts at a switch, along the route from the first to the second: those that rise have no fault, one
/// that falls is named. A route is looked at before its ranks: without any, one that leads nowhere is named as astray.
pub fn faults_of_two_hosts()
    ensures rising { first_fault two_hosts_map
        (record { v = 0; p = pos 0; rank = 6 } ∷ record { v = 1; p = pos 3; rank = 8 } ∷ [])
        (record { from = 0; to = 1; walk = pos 3 ∷ [] } ∷ []) ≡ None }
    ensures falling { first_fault two_hosts_map
        (record { v = 0; p = pos 0; rank = 6 } ∷ record { v = 1; p = pos 3; rank = 5 } ∷ [])
        (record { from = 0; to = 1; walk = pos 3 ∷ [] } ∷ []) ≡ Some (BadRank (0, pos 0) (1, pos 3) 6 5) }
    ensures without { first_fault two_hosts_map [] (record { from = 0; to = 1; walk = pos 3 ∷ [] } ∷ [])
        ≡ Some (NoRank 0 (pos 0)) }
    ensures astray { first_fault two_hosts_map [] (record { from = 0; to = 1; walk = [] } ∷ []) ≡ Some (BadRoute 0 1) }
{}
