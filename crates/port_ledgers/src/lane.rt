//! Where messages go, and what is kept of one.

/// Where a message goes: from a host to a port of a host, with a priority. On each lane messages keep their order.
#[derive(Clone, Copy, Debug, PartialEq, Eq, Hash)]
pub struct Lane {
    /// The sending host.
    pub from: u16,
    /// The receiving host.
    pub to: u16,
    /// The port of the receiving host.
    pub port: u8,
    /// 0 or 1.
    pub prio: u8,
}

/// A message that a client sent: byte i is the seed plus i, modulo 256.
#[derive(Clone, Copy, Debug)]
pub struct SentMessage {
    /// The sending port.
    pub sport: u8,
    /// How many bytes it has.
    pub len: u32,
    /// Its first byte.
    pub seed: u8,
}

/// A port of a host.
#[derive(Clone, Copy, Debug, PartialEq, Eq, Hash)]
pub struct PortName {
    /// The host.
    pub host: u16,
    /// The port.
    pub port: u8,
}

/// Where a line tells that a token is.
#[derive(Clone, Copy, Debug)]
pub struct ToldPlace {
    /// The token's number.
    pub number: u64,
    /// Whether the client has it, and not the port.
    pub with_client: bool,
}
