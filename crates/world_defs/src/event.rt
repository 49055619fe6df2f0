//! What may happen in a world: each event is one atomic action of a host, of a channel or of a client.

use net_defs::{End, Walk};

/// One event. Hosts are addresses, channels their numbers.
#[derive(Debug, Drop)]
pub enum Event {
    /// Stages a host probe, or a loopback probe, of this walk at the host.
    Ask {
        /// The address of the mapper.
        host: u16,
        /// The turns to the place that is asked for.
        walk: Walk,
        /// Whether it is a loopback probe.
        looped: bool,
    },
    /// Stages this part of a host's table at the adopter of the route set.
    Part {
        /// The address of the host whose table it is of.
        dst: u16,
        /// The number of the part, from 0.
        part: u8,
    },
    /// The host puts what it has to send first into its channel.
    Inject(u16),
    /// The channel's packet goes on.
    Advance(u16),
    /// The channel's packet is lost.
    Lose(u16),
    /// A copy of the channel's packet comes into limbo.
    Repeat(u16),
    /// The channel's packet itself comes into limbo.
    Hold(u16),
    /// Bits of the channel's packet are flipped, from `bit` on, where the pattern's bits are 1, its greatest first.
    Flip {
        /// The number of the channel.
        channel: u16,
        /// The first bit that the pattern lies on; bit 0 is the greatest of the first byte.
        bit: u32,
        /// A 1 for each bit that is flipped, the greatest first; with 0 the event isn't possible.
        pattern: u8,
    },
    /// The packet of this serial goes back from limbo into its channel.
    Replay(u64),
    /// The channel is cleared.
    Reset(u16),
    /// The host's sender to the peer sends again what isn't acknowledged.
    Expire {
        /// The address of the sending host.
        host: u16,
        /// The address of the host that didn't acknowledge it.
        peer: u16,
    },
    /// The host drops its staged probe, part, probe reply and part acknowledgement.
    GiveUp(u16),
    /// The client opens a port with so many tokens.
    Begin {
        /// The address of the port's host.
        host: u16,
        /// The port, from 0 to 7.
        port: u8,
        /// How many send tokens it gets.
        sends: u16,
        /// How many receive tokens it gets.
        recvs: u16,
    },
    /// The client closes a port.
    Close {
        /// The address of the port's host.
        host: u16,
        /// The port, from 0 to 7.
        port: u8,
    },
    /// The client provides a buffer of a size and a priority.
    Provide {
        /// The address of the port's host.
        host: u16,
        /// The port, from 0 to 7.
        port: u8,
        /// The size class of the buffer; those from 4 to 16 are accepted, with 2^size - 8 bytes.
        size: u8,
        /// The priority of the messages that it takes, 0 or 1.
        prio: u8,
    },
    /// The client sends `len` bytes, byte i being seed + i modulo 256.
    Send {
        /// The address of the sending host.
        host: u16,
        /// The sending port, from 0 to 7.
        port: u8,
        /// The address of the receiving host.
        dest: u16,
        /// The receiving port, from 0 to 7.
        dport: u8,
        /// The priority, 0 or 1.
        prio: u8,
        /// How many bytes the message has.
        len: u32,
        /// The first of them, if there are any.
        seed: u8,
    },
    /// The client takes the first event of a port's queue.
    Poll {
        /// The address of the port's host.
        host: u16,
        /// The port, from 0 to 7.
        port: u8,
    },
    /// The host gives up its table and its parts of the adopted routes' epoch.
    Revoke(u16),
    /// The cable at this port is taken out, with the packets in its two channels and those in limbo from them.
    Pull(End),
    /// The two ports are joined by a cable.
    Plug(End, End),
}
