//! Where a packet has come, and by which ports it may go on.

/// A vertex that a packet entered by a port, and whether a channel on its way went down.
#[derive(Clone, Copy)]
pub(crate) struct Entered {
    pub(crate) v: u32,
    pub(crate) port: i8,
    pub(crate) down: bool,
}

/// A cabled port of a vertex, and where the channel that leaves by it leads: `next.down` where that channel is down.
#[derive(Clone, Copy)]
pub(crate) struct Exit {
    pub(crate) port: i8,
    pub(crate) next: Entered,
}
