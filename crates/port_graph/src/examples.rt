//! A worked example, computed by the prover: the function's contract is the example, and its body is empty.

ghost use Rattle.std.specs.Prelude.{◌≡◌, ◌∷◌, [], None, Some};
ghost use Rattle.net_defs.specs.Examples.{two_hosts, host_end, switch_end, joined};
ghost use Rattle.net_defs.specs.Network.{far};
ghost use Rattle.net_defs.specs.Building.{with_cable};
ghost use Rattle.port_graph.specs.Removing.{without_cable};

/// Two hosts at a switch: the first cable is taken away at either end, and another is plugged at the same ports.
pub fn cable_of_two_hosts_removed()
    ensures by_host { (without_cable two_hosts (host_end 0)).cables ≡ joined (host_end 1) (switch_end 0 5) ∷ [] }
    ensures by_switch { without_cable two_hosts (switch_end 0 2) ≡ without_cable two_hosts (host_end 0) }
    ensures free_port { without_cable two_hosts (switch_end 0 3) ≡ two_hosts }
    ensures gone { far (without_cable two_hosts (host_end 0)) (switch_end 0 2) ≡ None }
    ensures left { far (without_cable two_hosts (host_end 0)) (switch_end 0 5) ≡ Some (host_end 1) }
    ensures again { (with_cable (without_cable two_hosts (host_end 0)) (host_end 0) (switch_end 0 2)).cables
        ≡ joined (host_end 1) (switch_end 0 5) ∷ joined (host_end 0) (switch_end 0 2) ∷ [] }
{}
