//! One cable of a history.

use net_defs::Cable;

/// A cable, with the changes that plugged it and pulled it.
#[derive(Clone, Copy, Debug)]
pub struct Wire {
    /// Its ends.
    pub cable: Cable,
    /// The number of the change that plugged it: 0 for a cable of the first fabric.
    pub plugged: u16,
    /// The number of the change that pulled it; none while it is in place.
    pub pulled: Option<u16>,
}
