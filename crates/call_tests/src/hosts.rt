//! What a host sends first, as a packet of its own.

use net_defs::Walk;
use nic_node::NicNode;

#[test]
fn a_host_makes_the_packet_of_its_probe(rt: HostRuntime) {
    let walk = Walk::new(rt.alloc(), &[3]).expect(&rt, "memory");
    let mut host = NicNode::new(rt.alloc(), 0, 2).expect(&rt, "memory");
    host.ask(walk, false);
    let packet = host.stage(rt.alloc(), 1).expect(&rt, "memory");
    host.end();
    assert!(rt; packet.is_some());
}
