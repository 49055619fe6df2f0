//! Worked examples, computed by the prover: each function's contract is the example, and its body is empty.

ghost use Rattle.std.specs.Prelude.{◌≡◌, ◌∷◌, [], pos, negsuc, true, false};
ghost use Rattle.map_defs.specs.NetMap.{IsMap, AreInOrder, IsConnected, map_far};
ghost use Rattle.journal_defs.specs.Examples.{two_hosts_journal};
ghost use Rattle.map_defs.specs.Quotient.{IsQuotient};
ghost use Rattle.map_defs.specs.Sameness.{IsSame, graph_of_map};
ghost use Rattle.map_defs.specs.Core.{bridges_of, core_of};
ghost use Rattle.map_defs.specs.Orientation.{root, levels, order_of, is_up, IsOrder};
ghost use Rattle.map_defs.specs.Routing.{channels_on, port_of_host, is_legal, IsLeastLegal, AreRoutesOf};
ghost use Rattle.map_defs.specs.Ranks.{ranks_of, IsCertificate, channels_of_routes};
ghost use Rattle.net_defs.specs.Dependencies.{IsBefore, Chain};
ghost use Rattle.map_defs.specs.Examples.{
  two_hosts_map,
  moved_map,
  self_cabled_map,
  ring_map,
  port,
  ring_routes,
  free_routes,
  ring_ranks,
};

/// The map of two hosts at one switch, from its journal of 31 asks; counted from another port it is the same map.
pub fn map_of_two_hosts()
    ensures is_a_map { IsMap two_hosts_map }
    ensures quotient { IsQuotient 0 two_hosts_journal two_hosts_map }
    ensures same { IsSame (graph_of_map two_hosts_map) (graph_of_map moved_map) }
{}

/// A switch that is cabled to itself behind another: the cable between the two cuts it off from all hosts.
pub fn core_of_the_self_cabled_map()
    ensures is_a_map { IsMap self_cabled_map }
    ensures in_order { AreInOrder self_cabled_map.cables }
    ensures far { map_far self_cabled_map (port 3 (pos 2)) ≡ Some (port 3 (pos 1)) }
    ensures one_bridge { bridges_of self_cabled_map ≡ 2 ∷ [] }
    ensures core { core_of self_cabled_map ≡ true ∷ true ∷ true ∷ false ∷ [] }
    ensures no_bridge_of_the_ring { bridges_of ring_map ≡ [] }
{}

/// A ring of four switches with a host each: the root is the first switch, and the cable opposite to it is down in
/// one direction.
pub fn orientation_of_the_ring()
    ensures is_a_map { IsMap ring_map }
    ensures in_order { AreInOrder ring_map.cables }
    ensures connected { IsConnected ring_map }
    ensures the_root { root ring_map ≡ 1 }
    ensures the_levels { levels ring_map ≡ 1 ∷ 0 ∷ 1 ∷ 1 ∷ 2 ∷ 2 ∷ 2 ∷ 3 ∷ [] }
    ensures the_order { order_of ring_map ≡ 1 ∷ 0 ∷ 2 ∷ 3 ∷ 4 ∷ 5 ∷ 6 ∷ 7 ∷ [] }
    ensures each_its_place { IsOrder (order_of ring_map) 8 }
    ensures up_to_the_root { is_up ring_map (order_of ring_map) (port 2 (pos 0)) ≡ true }
    ensures down_from_the_root { is_up ring_map (order_of ring_map) (port 1 (negsuc 1)) ≡ false }
    ensures the_ranks { ranks_of ring_map (order_of ring_map) ≡ ring_ranks }
{}

/// From b to d the route by the root is legal and least. The other way round goes up after it went down.
pub fn routes_of_the_ring()
    ensures host_b { port_of_host ring_map 1 ≡ Some (port 5 (pos 0)) }
    ensures crossed { channels_on ring_map (port_of_host ring_map 1) (negsuc 0 ∷ pos 1 ∷ pos 2 ∷ [])
        ≡ port 5 (pos 0) ∷ port 2 (pos 0) ∷ port 1 (negsuc 0) ∷ port 3 (pos 2) ∷ [] }
    ensures not_legal { is_legal ring_map (order_of ring_map) 1 (negsuc 1 ∷ negsuc 0 ∷ pos 1 ∷ []) ≡ false }
    ensures least { IsLeastLegal ring_map (order_of ring_map) 1 3 (negsuc 0 ∷ pos 1 ∷ pos 2 ∷ []) }
    ensures all_routes { AreRoutesOf ring_map (order_of ring_map) ring_routes }
{}

/// The ranks of the ring certify its routes. With the other choice from b to d the dependencies would close a cycle.
pub fn dependencies_of_the_ring()
    ensures before { IsBefore (channels_of_routes ring_map ring_routes) (port 1 (negsuc 0)) (port 3 (pos 2)) }
    ensures certificate { IsCertificate ring_map ring_routes ring_ranks }
    ensures cycle { Chain (IsBefore (channels_of_routes ring_map free_routes)) (port 1 (negsuc 1)) (port 1 (negsuc 1)) }
{}
