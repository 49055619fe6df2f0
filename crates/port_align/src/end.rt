//! A port of a node or vertex.

/// A port of a node or vertex, which is given by its number.
#[derive(Clone, Copy, Debug)]
pub struct NodePort {
    /// The number of the node or vertex.
    pub node: u32,
    /// The port, from -15 to 15.
    pub port: i8,
}
