//! The numbers of a host's lanes: by the peers' addresses, and for one peer by priority.

ghost use Rattle.std.specs.Prelude.{◌≡◌, ◌<◌, ◌^◌};
ghost use Rattle.world_defs.specs.Node.{lane_count, lane_of, peer_of, prio_of};

/// How many lanes a host has among so many.
pub(crate) fn lane_count(hosts: u16) -> u32
    ensures number { result ≡ lane_count hosts }
    ensures bounded { result < 2 ^ 17 }
{
    2 * u32::from(hosts)
}

/// The lane of a peer and a priority. Any priority above 0 counts as 1.
pub(crate) fn lane_of(peer: u16, prio: u8) -> u32
    ensures { result ≡ lane_of peer prio }
{
    2 * u32::from(peer) + u32::from(prio.min(1))
}

/// The peer of a lane.
pub(crate) fn peer_of(lane: u32) -> u16
    requires { lane < 2 ^ 17 }
    ensures { result ≡ peer_of lane }
{
    (lane / 2) as u16
}

/// The priority of a lane: 0 or 1.
pub(crate) fn prio_of(lane: u32) -> u8
    ensures { result ≡ prio_of lane }
{
    (lane % 2) as u8
}
