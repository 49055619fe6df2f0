//! Where the ports of a node lie in its class.

ghost use Rattle.std.specs.Prelude.{◌≡◌};
ghost use Rattle.net_defs.specs.Turn.{IsTurn};
ghost use Rattle.port_align.specs.Offset.{apart};

/// A node's class, and where the node's ports lie in it: port p of the node is port p + offset of the class.
#[derive(Clone, Copy, Debug, PartialEq, Eq)]
pub struct ClassFrame {
    /// The number of the class; its nodes are replicates.
    pub class: u32,
    /// What is added to a port of the node, from -15 to 15.
    pub offset: i8,
}

/// The offset of `u` less that of `v`: port p of the one node is port p + k of the other. None exactly for two classes.
pub fn aligned(u: ClassFrame, v: ClassFrame) -> Option<i8>
    requires first { IsTurn u.offset }
    requires second { IsTurn v.offset }
    ensures { result ≡ apart u v }
{
    if u.class == v.class {
        Some(u.offset - v.offset)
    } else {
        None
    }
}
