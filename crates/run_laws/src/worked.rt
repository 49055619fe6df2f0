//! A mapping, worked out: `specs/TwoHosts.antt` has the statements.

ghost use Rattle.run_laws.specs.TwoHosts.{MappingIsComplete, MapsAreRight};

/// Whatever map a run makes of the two hosts, it is the one map, says complete, and is right.
pub fn mapping_of_the_two_hosts()
    ensures complete { MappingIsComplete }
    ensures right { MapsAreRight }
{}
