//! Worked examples, computed by the prover: each function's contract is the example, and its body is empty.

ghost use Rattle.std.specs.Prelude.{◌≡◌, ◌∷◌, [], pos, negsuc, true, false, length};
ghost use Rattle.net_defs.specs.Network.{IsFabric};
ghost use Rattle.net_defs.specs.Examples.{two_hosts, self_cabled};
ghost use Rattle.net_defs.specs.declared.vertex.Vertex.{Vertex};
ghost use Rattle.net_defs.specs.declared.place.Answer.{Answer};
ghost use Rattle.journal_defs.specs.Walks.{walk_below};
ghost use Rattle.journal_defs.specs.Fabrics.{one_cable, parallel, line, ring_of_four, lonely_ring};
ghost use Rattle.journal_defs.specs.Examples.{told, one_cable_journal, parallel_journal, two_hosts_journal};
ghost use Rattle.journal_defs.specs.Tree.{IsJournal, answered, nodes, host_of, Leads, node_below};
ghost use Rattle.journal_defs.specs.Tree.Node.{Mapper, Reached};
ghost use Rattle.journal_defs.specs.Replicates.{Replicates};
ghost use Rattle.journal_defs.specs.Truth.{IsTrueJournal, IsTrueWhereFound, StandTogether};
ghost use Rattle.journal_defs.specs.Growth.{NextAsk, IsGrown, IsClosed};
ghost use Rattle.journal_defs.specs.Part.{Path, IsInPart, distance, part, farthest, host_distance, walk_count};

/// Walks stand in the order of their lengths, and walks of one length turn by turn.
pub fn order_of_walks()
    ensures shorter_first { walk_below (pos 15 ∷ []) (negsuc 14 ∷ negsuc 14 ∷ []) ≡ true }
    ensures by_the_first_turn { walk_below (negsuc 1 ∷ pos 5 ∷ []) (negsuc 0 ∷ negsuc 4 ∷ []) ≡ true }
    ensures by_the_second { walk_below (pos 1 ∷ pos 0 ∷ []) (pos 1 ∷ negsuc 0 ∷ []) ≡ false }
    ensures not_itself { walk_below (pos 1 ∷ []) (pos 1 ∷ []) ≡ false }
{}

/// How far a mapper's part reaches, how far its switches are from hosts, and how many walks there are to that depth.
pub fn depths_of_the_fabrics()
    ensures one_cable_is_a_fabric { IsFabric one_cable }
    ensures one_cable_is_near { (farthest one_cable 0 ≡ 1) × (host_distance one_cable 0 ≡ 0)
        × (walk_count one_cable 0 ≡ 1) }
    ensures two_hosts_are_near { (farthest two_hosts 0 ≡ 2) × (host_distance two_hosts 0 ≡ 1)
        × (walk_count two_hosts 0 ≡ 2) }
    ensures parallel_is_a_fabric { IsFabric parallel }
    ensures parallel_is_near { (farthest parallel 0 ≡ 3) × (host_distance parallel 0 ≡ 1)
        × (walk_count parallel 0 ≡ 15) }
    ensures line_is_a_fabric { IsFabric line }
    ensures line_is_longer { (farthest line 0 ≡ 4) × (host_distance line 0 ≡ 2) × (walk_count line 0 ≡ 4) }
    ensures ring_is_a_fabric { IsFabric ring_of_four }
    ensures ring_with_hosts { (farthest ring_of_four 0 ≡ 4) × (host_distance ring_of_four 0 ≡ 1)
        × (walk_count ring_of_four 0 ≡ 19) }
    ensures across_the_ring { distance ring_of_four (Vertex.Host 0) (Vertex.Host 2) ≡ 4 }
    ensures lonely_ring_is_a_fabric { IsFabric lonely_ring }
    ensures ring_with_one_host { (farthest lonely_ring 0 ≡ 3) × (host_distance lonely_ring 0 ≡ 3)
        × (walk_count lonely_ring 0 ≡ 15) }
    ensures self_cabled_switch { (farthest self_cabled 0 ≡ 2) × (host_distance self_cabled 0 ≡ 2)
        × (walk_count self_cabled 0 ≡ 17) }
{}

/// Two cables lead from host a to host b, over the switch.
pub fn part_of_two_hosts()
    ensures path { Path two_hosts (Vertex.Host 0) 2 (Vertex.Host 1) }
    ensures in_part { IsInPart two_hosts 0 (Vertex.Host 1) }
    ensures whole_part { part two_hosts 0 ≡ Vertex.Host 0 ∷ Vertex.Host 1 ∷ Vertex.Switch 0 ∷ [] }
    ensures nearest { distance two_hosts (Vertex.Host 0) (Vertex.Switch 0) ≡ 1 }
{}

/// The journal that finds host b over both cables between two switches.
pub fn tree_of_the_parallel_cables()
    ensures no_walk_twice { IsJournal parallel_journal }
    ensures told { answered parallel_journal (pos 1 ∷ pos 1 ∷ []) ≡ Some (Answer.Host 1) }
    ensures not_asked { answered parallel_journal (pos 3 ∷ []) ≡ None }
    ensures six_nodes { nodes parallel_journal ≡ Mapper ∷ Reached [] ∷ Reached (pos 1 ∷ []) ∷ Reached (pos 2 ∷ [])
        ∷ Reached (pos 1 ∷ pos 1 ∷ []) ∷ Reached (pos 2 ∷ negsuc 1 ∷ []) ∷ [] }
    ensures the_mapper_is_a_host { host_of 0 parallel_journal Mapper ≡ Some 0 }
    ensures and_so_is_b { host_of 0 parallel_journal (Reached (pos 2 ∷ negsuc 1 ∷ [])) ≡ Some 1 }
    ensures the_mapper_first { node_below Mapper (Reached []) ≡ true }
    ensures out_of_the_mapper { Leads parallel_journal Mapper (pos 0) (Reached []) (pos 0) }
    ensures by_port_two { Leads parallel_journal (Reached []) (pos 2) (Reached (pos 2 ∷ [])) (pos 0) }
    ensures back_again { Leads parallel_journal (Reached (pos 2 ∷ [])) (pos 0) (Reached []) (pos 2) }
    ensures all_true { IsTrueJournal parallel 0 parallel_journal }
    ensures true_but_for_a_lost_probe { IsTrueWhereFound two_hosts 0
        (told [] Answer.Switch ∷ told (pos 3 ∷ []) Answer.Nothing ∷ []) }
{}

/// The two walks to switch t enter it by ports 3 and 6: port p of the one is port p - 3 of the other.
pub fn replicates_over_parallel_cables()
    ensures one_host { Replicates 0 parallel_journal (Reached (pos 1 ∷ pos 1 ∷ [])) (Reached (pos 2 ∷ negsuc 1 ∷ []))
        (pos 0) }
    ensures behind_it { Replicates 0 parallel_journal (Reached (pos 1 ∷ [])) (Reached (pos 2 ∷ [])) (negsuc 2) }
    ensures three_ports_apart { StandTogether parallel 0 (Reached (pos 1 ∷ [])) (Reached (pos 2 ∷ [])) (negsuc 2) }
{}

/// Two hosts on one cable: one ask, and the journal has grown and is closed.
pub fn growth_over_one_cable()
    ensures grown { IsGrown 0 1 one_cable_journal }
    ensures closed { IsClosed 0 one_cable_journal }
{}

/// Two hosts at a switch: first the empty walk, then the switch's turns from -15 on; after 31 asks the journal has
/// grown and is closed.
pub fn growth_over_two_hosts()
    ensures first { NextAsk 0 4 [] [] }
    ensures second { NextAsk 0 4 (told [] Answer.Switch ∷ []) (negsuc 14 ∷ []) }
    ensures third { NextAsk 0 4 (told [] Answer.Switch ∷ told (negsuc 14 ∷ []) Answer.Nothing ∷ []) (negsuc 13 ∷ []) }
    ensures asks { length two_hosts_journal ≡ 31 }
    ensures all_true { IsTrueJournal two_hosts 0 two_hosts_journal }
    ensures grown { IsGrown 0 4 two_hosts_journal }
    ensures closed { IsClosed 0 two_hosts_journal }
{}
