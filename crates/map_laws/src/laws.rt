//! The laws of the map: each function's contract is the law, and its body is empty.

ghost use Rattle.map_laws.specs.Certificate.{
  ClosedMapIsRight,
  QuotientIsMap,
  QuotientIsOne,
  QuotientIsConnected,
  RightMapIsNoLarger,
  RightMapsAreSame,
  MarksDoNotMatter,
  MarkedMapIsMap,
};
ghost use Rattle.map_laws.specs.RouteSets.{RoutesOfARightMapAreRight};
ghost use Rattle.map_laws.specs.Leading.{
  RoutesLeadInTheFabric,
  ChannelsAreMatched,
  ChannelsAreOneToOne,
  CertificateHoldsInTheFabric,
};

/// The certificate: the map of a closed journal whose answers are all true is the mapper's part of the fabric, up to
/// each switch's offset.
pub fn closed_map_is_right()
    ensures { ClosedMapIsRight }
{}

/// A journal has one map. It keeps the rules of maps where what the journal found is true, and it is connected where
/// the journal has grown.
pub fn journal_has_one_map()
    ensures one { QuotientIsOne }
    ensures rules { QuotientIsMap }
    ensures connected { QuotientIsConnected }
{}

/// A right map is no larger than the fabric, and two right maps are the same up to offset. A map stays right, and a
/// map, when its core is marked.
pub fn right_maps_are_alike()
    ensures no_larger { RightMapIsNoLarger }
    ensures same { RightMapsAreSame }
    ensures marks { MarksDoNotMatter }
    ensures marked { MarkedMapIsMap }
{}

/// Turns lead from a host on a right map where they lead in the fabric.
pub fn routes_lead_in_the_fabric()
    ensures { RoutesLeadInTheFabric }
{}

/// The channels that turns cross on a right map are those that they cross in the fabric, one for one and in order; so
/// a rank certificate of routes on the map rules out a cycle of dependencies in the fabric.
pub fn channels_are_those_of_the_fabric()
    ensures matched { ChannelsAreMatched }
    ensures one_to_one { ChannelsAreOneToOne }
    ensures no_cycle { CertificateHoldsInTheFabric }
{}

/// The routes of a right map lead in the fabric to their hosts, join each two hosts of the mapper's part, and leave
/// no cycle of dependencies there.
pub fn routes_of_a_right_map_are_right()
    ensures { RoutesOfARightMapAreRight }
{}
