//! Ways between ports of nodes, and where they begin and end.

ghost use Rattle.std.specs.Prelude.{◌≡◌, ◌<◌, length};
ghost use Rattle.replicate_merge.specs.Ways.{begins_at, class_port, IsInside};

use port_align::ClassFrame;

/// Where a way begins.
#[derive(Clone, Copy, Debug, PartialEq, Eq)]
pub enum Spot {
    /// At the host of an address.
    Address(u16),
    /// At a port of a class.
    Port(u32, i16),
}

/// What leads to a port of a node: nodes are given by number.
#[derive(Clone, Copy, Debug)]
pub enum Way {
    /// A host's address leads to port 0 of a node that is this host.
    Host {
        /// The host's address.
        address: u16,
        /// The node that is this host.
        node: u32,
    },
    /// A port of a node leads to a port of another.
    Cable {
        /// The node that the way leaves.
        from: u32,
        /// Its port that the way leaves by, counted from the node's own entry port.
        port: i8,
        /// The node that the way enters.
        to: u32,
        /// Its port that the way enters by, counted from the node's own entry port.
        entry: i8,
    },
}

/// Where a way begins.
pub(crate) fn begins_at(frames: &[ClassFrame], way: &Way) -> Spot
    requires { IsInside (length frames.now) way.now }
    ensures { result ≡ begins_at frames.now way.now }
{
    match way {
        Way::Host { address, node: _ } => Spot::Address(*address),
        Way::Cable {
            from,
            port,
            to: _,
            entry: _,
        } => {
            let (class, port) = class_port(frames, *from, *port);
            Spot::Port(class, port)
        }
    }
}

// A port of a node as one of its class.
fn class_port(frames: &[ClassFrame], node: u32, port: i8) -> (u32, i16)
    requires { node < length frames.now }
    ensures { result ≡ class_port frames.now node port }
{
    let frame = frames[node as usize];
    (frame.class, i16::from(port) + i16::from(frame.offset))
}
