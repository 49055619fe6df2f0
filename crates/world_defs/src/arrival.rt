//! What a host makes of a packet that reaches it.

use crate::heard::Heard;
use packet_defs::HostDrop;

/// What a host made of a packet that reached it.
#[derive(Clone, Copy, Debug, PartialEq, Eq)]
pub enum Arrival {
    /// It read the packet, and heard this.
    Heard(Heard),
    /// It dropped the packet: its CRC, head or body is wrong in this way.
    Dropped(HostDrop),
    /// The body names another destination, or an address that is no host.
    NotMine,
}
