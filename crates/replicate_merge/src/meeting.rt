//! Ports of nodes, and pairs of ports that are one.

use port_align::NodePort;

/// Two ports that are one port of one switch, so their nodes are replicates.
#[derive(Clone, Copy, Debug)]
pub struct Meeting {
    /// The port of the one node.
    pub first: NodePort,
    /// The port of the other.
    pub second: NodePort,
}

/// The node that is known of a host's address.
#[derive(Clone, Copy, Debug)]
pub struct HostNode {
    /// The host's address.
    pub address: u16,
    /// The node's number.
    pub node: u32,
}
