//! Where a walk ends, and what a mapper is told of it.

/// Where a walk ends.
#[derive(Clone, Copy, Debug, PartialEq, Eq)]
pub enum Place {
    /// At the host of this address.
    Host(u16),
    /// At the switch of this number, entered by this port.
    Switch(u16, u8),
    /// The walk is stuck: a port outside the switch, a port without cable, or a host with turns left.
    Nothing,
}

/// What a mapper is told of a walk's end: neither which switch it is nor its entry port.
#[derive(Clone, Copy, Debug, PartialEq, Eq)]
pub enum Answer {
    /// It ends at the host of this address.
    Host(u16),
    /// It ends at some switch.
    Switch,
    /// It is stuck, or so it seemed where the ask drowned.
    Nothing,
}
