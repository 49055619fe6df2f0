//! Worked examples of the laws: two hosts on one cable, and two hosts at one switch. Each function's contract is the
//! example, and its body is empty.

ghost use Rattle.std.specs.Prelude.{◌≡◌, ◌∷◌, [], pos, negsuc};
ghost use Rattle.net_defs.specs.Network.{IsFabric};
ghost use Rattle.net_defs.specs.Route.{place, channels_of};
ghost use Rattle.net_defs.specs.Examples.{two_hosts};
ghost use Rattle.net_defs.specs.declared.place.Place.{Place};
ghost use Rattle.journal_defs.specs.Fabrics.{one_cable};
ghost use Rattle.journal_defs.specs.Examples.{one_cable_journal, two_hosts_journal};
ghost use Rattle.journal_defs.specs.Truth.{IsTrueJournal, IsTrueWhereFound};
ghost use Rattle.journal_defs.specs.Growth.{IsGrown, IsClosed};
ghost use Rattle.map_defs.specs.NetMap.{IsMap, IsConnected};
ghost use Rattle.map_defs.specs.Quotient.{IsQuotient};
ghost use Rattle.map_defs.specs.Sameness.{IsMapOfPart};
ghost use Rattle.map_defs.specs.Routing.{LeadsTo, AreRoutesOf, channels_on, port_of_host};
ghost use Rattle.map_defs.specs.Orientation.{order_of};
ghost use Rattle.net_defs.specs.Dependencies.{IsBefore, HasNoCycle};
ghost use Rattle.map_defs.specs.Ranks.{IsCertificate};
ghost use Rattle.map_defs.specs.Examples.{two_hosts_map, moved_map, port};
ghost use Rattle.map_laws.specs.Certificate.{IsNoLarger};
ghost use Rattle.map_laws.specs.Leading.{channels_in_fabric};
ghost use Rattle.map_laws.specs.RouteSets.{AreRightRoutes};
ghost use Rattle.map_laws.specs.Examples.{one_cable_map, lost_probe, lone_map, unexpanded, stub_map, two_hosts_routes};
ghost use Rattle.map_laws.specs.Examples.{two_hosts_ranks};

/// Two hosts on one cable: all that the certificate asks for holds after one ask, so the map is right.
pub fn certificate_over_one_cable()
    ensures fabric { IsFabric one_cable }
    ensures all_true { IsTrueJournal one_cable 0 one_cable_journal }
    ensures grown { IsGrown 0 1 one_cable_journal }
    ensures closed { IsClosed 0 one_cable_journal }
    ensures quotient { IsQuotient 0 one_cable_journal one_cable_map }
    ensures right { IsMapOfPart one_cable 0 one_cable_map }
    ensures rules { IsMap one_cable_map }
    ensures no_larger { IsNoLarger one_cable one_cable_map }
{}

/// Two hosts at a switch: the map of 31 asks is right, and so is the one that counts the switch's ports as the fabric
/// does.
pub fn certificate_over_two_hosts()
    ensures fabric { IsFabric two_hosts }
    ensures all_true { IsTrueJournal two_hosts 0 two_hosts_journal }
    ensures grown { IsGrown 0 4 two_hosts_journal }
    ensures closed { IsClosed 0 two_hosts_journal }
    ensures quotient { IsQuotient 0 two_hosts_journal two_hosts_map }
    ensures right { IsMapOfPart two_hosts 0 two_hosts_map }
    ensures moved { IsMapOfPart two_hosts 0 moved_map }
    ensures connected { IsConnected two_hosts_map }
{}

/// What the certificate asks for is needed. With its one probe lost a mapper's journal is closed, and true where it
/// found something; with a switch not expanded it is true and has grown. Both maps lack a host.
pub fn maps_that_lack_a_host()
    ensures true_where_found { IsTrueWhereFound one_cable 0 lost_probe }
    ensures lost_has_grown { IsGrown 0 1 lost_probe }
    ensures lost_is_closed { IsClosed 0 lost_probe }
    ensures lost_has_a_map { IsQuotient 0 lost_probe lone_map }
    ensures lost_is_wrong { ¬ IsMapOfPart one_cable 0 lone_map }
    ensures unexpanded_is_true { IsTrueJournal two_hosts 0 unexpanded }
    ensures unexpanded_has_grown { IsGrown 0 1 unexpanded }
    ensures unexpanded_has_a_map { IsQuotient 0 unexpanded stub_map }
    ensures unexpanded_is_wrong { ¬ IsMapOfPart two_hosts 0 stub_map }
{}

/// Turn 3 leads from the first host to the second on the map and in the fabric, over two channels each.
pub fn route_over_two_hosts()
    ensures on_the_map { LeadsTo two_hosts_map 0 1 (pos 3 ∷ []) }
    ensures in_the_fabric { place two_hosts 0 (pos 3 ∷ []) ≡ Place.Host 1 }
    ensures crossed_on_the_map { channels_on two_hosts_map (port_of_host two_hosts_map 0) (pos 3 ∷ [])
        ≡ port 0 (pos 0) ∷ port 1 (pos 3) ∷ [] }
    ensures crossed_in_the_fabric { channels_of two_hosts 0 (pos 3 ∷ []) ≡ 0 ∷ 3 ∷ [] }
    ensures ranked { IsCertificate two_hosts_map two_hosts_routes two_hosts_ranks }
    ensures both { channels_in_fabric two_hosts two_hosts_routes ≡ (0 ∷ 3 ∷ []) ∷ (2 ∷ 1 ∷ []) ∷ [] }
    ensures no_cycle { HasNoCycle (IsBefore (channels_in_fabric two_hosts two_hosts_routes)) }
    ensures least { AreRoutesOf two_hosts_map (order_of two_hosts_map) two_hosts_routes }
    ensures right { AreRightRoutes two_hosts 0 two_hosts_routes }
{}
