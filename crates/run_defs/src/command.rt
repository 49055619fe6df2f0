//! The commands of a script.

use duo_defs::DuoEvent;
use net_defs::{End, Walk};

/// A fault that a script plans.
#[derive(Clone, Copy, Debug, PartialEq, Eq)]
pub enum PlanKind {
    /// `plan lose`: the packet is gone.
    Lose,
    /// `plan repeat`: a copy of the packet is put aside.
    Repeat,
    /// `plan hold`: the packet itself is put aside.
    Hold,
    /// `plan flip`: bits of the packet are flipped.
    Flip {
        /// The first bit that the pattern lies on, at most 10,000; bit 0 is the greatest of the first byte.
        bit: u32,
        /// A 1 for each bit that is flipped, the greatest first; not 0.
        pattern: u8,
    },
    /// `plan pull`: the cable at a port is pulled, with the packets on it.
    Pull {
        /// The port.
        at: End,
    },
}

/// One event that a script asks for. A channel is named by the end that it leaves.
#[derive(Clone, Copy, Debug, PartialEq, Eq)]
pub enum StepLine {
    /// `step inject`: the host of this address puts what it has to send first into its channel.
    Inject(u16),
    /// `step giveup`: the host of this address drops its staged probe or part, its reply and its part acknowledgement.
    GiveUp(u16),
    /// `step advance`: the channel's packet goes on.
    Advance(End),
    /// `step lose`: the channel's packet is lost.
    Lose(End),
    /// `step repeat`: a copy of the channel's packet is put aside.
    Repeat(End),
    /// `step hold`: the channel's packet itself is put aside.
    Hold(End),
    /// `step reset`: the channel is cleared.
    Reset(End),
    /// `step flip`: bits of the channel's packet are flipped.
    Flip {
        /// The end that the channel leaves.
        at: End,
        /// The first bit that the pattern lies on, at most 10,000; bit 0 is the greatest of the first byte.
        bit: u32,
        /// A 1 for each bit that is flipped, the greatest first; not 0.
        pattern: u8,
    },
    /// `step expire`: what a host's peer didn't acknowledge is sent again.
    Expire {
        /// The address of the sending host.
        host: u16,
        /// The address of the host that didn't acknowledge it.
        peer: u16,
    },
    /// `step replay`: the packet that was put aside under this serial goes back into its channel.
    Replay(u32),
}

/// One command of a script. Hosts are addresses.
#[derive(Debug, Drop)]
pub enum Command {
    /// Asks where a walk ends.
    Walk {
        /// The address from which it starts.
        host: u16,
        /// The turns that it takes.
        walk: Walk,
    },
    /// Maps the fabric from a host, to a depth of cables, each ask with so many tries.
    Map {
        /// The address of the mapper.
        host: u16,
        /// How many cables deep it is asked to go, from 1 to 32.
        depth: u8,
        /// How often each probe of an ask is sent at most, from 1 to 8.
        tries: u8,
    },
    /// Maps the circuit links from a host, to a depth of cables. Nothing is injected, and no map is kept.
    Circuit {
        /// The address from which walks start.
        host: u16,
        /// How many cables deep it is asked to go, from 1 to 32.
        depth: u8,
    },
    /// Computes the routes of the last map, with their ranks.
    Routes,
    /// Distributes the last routes.
    Install {
        /// How often each part of a table is sent at most, from 1 to 8.
        tries: u8,
    },
    /// Opens a port.
    Begin {
        /// The address of the port's host.
        host: u16,
        /// The port, from 0 to 7.
        port: u8,
        /// How many send tokens it gets, at most 64.
        sends: u16,
        /// How many receive tokens it gets, at most 64.
        recvs: u16,
    },
    /// Closes a port.
    Close {
        /// The address of the port's host.
        host: u16,
        /// The port, from 0 to 7.
        port: u8,
    },
    /// Takes the first event of a port's queue.
    Poll {
        /// The address of the port's host.
        host: u16,
        /// The port, from 0 to 7.
        port: u8,
    },
    /// Shows where each token of a port is.
    Tokens {
        /// The address of the port's host.
        host: u16,
        /// The port, from 0 to 7.
        port: u8,
    },
    /// Gives a port a receive token with a buffer.
    Provide {
        /// The address of the port's host.
        host: u16,
        /// The port, from 0 to 7.
        port: u8,
        /// The size class of the buffer, from 0 to 31; those from 4 to 16 are accepted, with 2^size - 8 bytes.
        size: u8,
        /// The priority of the messages that it takes, 0 or 1.
        prio: u8,
    },
    /// Sends a message, byte i being seed + i modulo 256.
    Send {
        /// The address of the sending host.
        host: u16,
        /// The sending port, from 0 to 7.
        port: u8,
        /// The address of the receiving host.
        dest: u16,
        /// The receiving port, from 0 to 7.
        dport: u8,
        /// The priority, 0 or 1.
        prio: u8,
        /// How many bytes it has, at most 1,000,000.
        len: u32,
        /// Its first byte, if it has any.
        seed: u8,
    },
    /// Plans a fault for an injection, so far ahead.
    Plan {
        /// How many injections ahead, 1 for the next.
        ahead: u64,
        /// What strikes the packet.
        kind: PlanKind,
    },
    /// One event.
    Step(StepLine),
    /// Lets all messages come that can.
    Settle,
    /// Ends the script.
    Finish,
    /// One event of the two hosts that restart, which are apart from the fabric.
    Duo(DuoEvent),
    /// Pulls the cable at a port.
    Pull(End),
    /// Joins two ports by a new cable.
    Plug(End, End),
    /// All hosts give up the epoch of the adopted routes.
    Revoke,
    /// Tells which adopted routes cross a cable that was pulled since they were adopted.
    Broken,
}
