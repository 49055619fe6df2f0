//! How far the packets on their way may still go.

ghost use Rattle.std.specs.Prelude.{◌≤◌, ◌<◌, length};
ghost use Rattle.world_defs.specs.Hops.{total_hops, hops_of};
ghost use Rattle.world_defs.specs.Links.{packet_in};

use link_model::Links;

/// At least the hops that all packets in channels have left: a packet has no more than bytes. It looks at full
/// channels alone.
pub(crate) fn hops_bound(links: &Links) -> u64
    ensures enough { total_hops links.now ≤ result }
    ensures few { result ≤ 9068544 }
{
    let _few = links.channels();
    let mut bound = 0;
    let mut from = 0;
    while let Some(c) = links.next_full(from) {
        bound += bytes_in(links, c);
        from = c + 1;
    }
    bound
}

// How many bytes the packet in a channel has.
fn bytes_in(links: &Links, c: u16) -> u64
    requires { c < length links.now.channels }
    ensures enough { hops_of (packet_in links.now c) ≤ result }
    ensures few { result ≤ 1107 }
{
    match links.peek(c) {
        Some(packet) => packet.size() as u64,
        None => 0,
    }
}
