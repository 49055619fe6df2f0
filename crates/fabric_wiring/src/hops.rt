//! A table by which a packet hops: from the channel that it leaves, by its front byte, to the channel that it enters.
//!
//! ```text
//!   a switch's 80 places     0 .. 15 | 16 .. 63  | 64 .. 79          entered by port 5:
//!                            ports   | no cables | ports again       turn +3 is byte 0x83: place 5 + 3
//!                                                                    turn -2 is byte 0xBE: place 5 + 62, port 3
//! ```

ghost use Rattle.std.specs.Prelude.{◌≡◌, ◌<◌, ◌≤◌, ◌+◌, ◌*◌, ◌-◌, ◌++◌, length, slice_set, None, IfOk, IfSome, OnOk};
ghost use Rattle.packet_defs.specs.RouteByte.{turn_of};
ghost use Rattle.fabric_wiring.specs.Hops.{hop_row, hop_table, hops_from};

use crate::tables::{HOST_PLACES, PLACES, PORT_PLACES};
use net_defs::{End, Vertex};
use std::alloc::{AllocError, Global};

// The places between a switch's ports and the same again.
const GAP: usize = 48;

// The places of one switch.
pub(crate) const ROW: usize = PORT_PLACES + GAP + PORT_PLACES;

// The places of hosts.
const LAST: usize = 64;

/// The table of so many switches, by the channels that leave their ports.
pub(crate) fn hop_table(
    alloc: Global,
    out: &[Option<u16>],
    switches: u16,
) -> Result<Vec<Option<u16>>, AllocError>
    requires few { switches ≤ 64 }
    requires size { length out.now ≡ PLACES }
    ensures { IfOk result (λ hops. hops.items ≡ hop_table out.now switches) }
{
    let mut hops = Vec::with_capacity(alloc, ROW * usize::from(switches) + LAST)?;
    for s in 0..switches {
        push_row(&mut hops, out, s)?;
    }
    hops.extend_from_slice(&[None; LAST])?;
    Ok(hops)
}

// Adds the places of a switch.
fn push_row(hops: &mut Vec<Option<u16>>, out: &[Option<u16>], s: u16) -> Result<(), AllocError>
    requires few { s < 64 }
    requires size { length out.now ≡ PLACES }
    ensures { OnOk result (hops.new.items ≡ hops.old.items ++ hop_row out.now s) }
{
    let at = HOST_PLACES + PORT_PLACES * usize::from(s);
    let ports = &out[at..at + PORT_PLACES];
    hops.extend_from_slice(ports)?;
    hops.extend_from_slice(&[None; GAP])?;
    hops.extend_from_slice(ports)
}

/// The place of turn 0 of what enters by an end, among so many switches.
pub(crate) fn hops_from(switches: u16, end: End) -> u32
    ensures { result ≡ hops_from switches end.v end.p }
{
    match end.v {
        Vertex::Host(_) => ROW as u32 * u32::from(switches),
        Vertex::Switch(s) => ROW as u32 * u32::from(s) + u32::from(end.p),
    }
}

/// The last six bits of a byte that begins as route bytes do. Where it is none of them, the table has no channel.
pub(crate) fn last_six(byte: u8) -> Option<usize>
    ensures six { IfSome result (λ six. (128 ≤ byte) × (byte < 192) × (six ≡ byte - 128)) }
    ensures none { result ≡ None → turn_of byte ≡ None }
{
    if 128 <= byte && byte < 192 {
        Some(usize::from(byte) - 128)
    } else {
        None
    }
}

/// Puts a channel, or none, at both places of a switch's port.
pub(crate) fn put_hop(hops: &mut Vec<Option<u16>>, at: usize, to: Option<u16>)
    requires { at + 64 < length hops.old.items }
    ensures { hops.new.items ≡ slice_set (slice_set hops.old.items at to) (at + 64) to }
{
    hops[at] = to;
    hops[at + PORT_PLACES + GAP] = to;
}
