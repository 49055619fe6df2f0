//! Flips of the frame, and which are refused.

use crate::frame::frame;
use myri_packet::{FlipRefusal, HostDrop, Packet, decode_at_host};
use std::alloc::{AllocError, Global};

/// The first bit from which a pattern of eight reaches past the frame's end.
pub(crate) const PAST_LAST: u32 = 233;

/// How many packets a host drops for their CRC, and how many it doesn't.
#[derive(Clone, Copy, Debug)]
pub(crate) struct Flips {
    /// Dropped as `BadCrc`.
    pub(crate) bad_crc: u32,
    /// Read, dropped for another cause, or not flipped.
    pub(crate) others: u32,
}

/// Flips the frame from each bit by each pattern, and hands each packet to a host.
pub(crate) fn count_flips(alloc: Global) -> Result<Flips, AllocError> {
    let frame = frame(alloc)?;
    let mut flips = Flips {
        bad_crc: 0,
        others: 0,
    };
    for bit in 0..PAST_LAST {
        flip_by_each(alloc, &frame, bit, &mut flips)?;
    }
    Ok(flips)
}

// Flips the frame from one bit by each pattern.
fn flip_by_each(
    alloc: Global,
    frame: &Packet,
    bit: u32,
    flips: &mut Flips,
) -> Result<(), AllocError> {
    for pattern in 1..=255u8 {
        let count = if is_dropped_so(frame.copy(alloc)?, bit, pattern) {
            &mut flips.bad_crc
        } else {
            &mut flips.others
        };
        *count = count.saturating_add(1);
    }
    Ok(())
}

// Whether a packet is flipped, and then dropped for its CRC.
fn is_dropped_so(packet: Packet, bit: u32, pattern: u8) -> bool {
    match packet.flip(bit, pattern) {
        Ok(flipped) => matches!(decode_at_host(&flipped), Err(HostDrop::BadCrc)),
        Err(_) => false,
    }
}

/// Why a flip of the frame is refused; none where it isn't, or where another packet comes back.
pub(crate) fn refusal_of(
    alloc: Global,
    bit: u32,
    pattern: u8,
) -> Result<Option<FlipRefusal>, AllocError> {
    let frame = frame(alloc)?;
    match frame.copy(alloc)?.flip(bit, pattern) {
        Ok(_) => Ok(None),
        Err((back, refusal)) => Ok(known(&back, &frame, refusal)),
    }
}

// The refusal, where the packet that came back is the one that went in.
fn known(back: &Packet, frame: &Packet, refusal: FlipRefusal) -> Option<FlipRefusal> {
    if back.head() == frame.head() && back.crc_byte() == frame.crc_byte() {
        Some(refusal)
    } else {
        None
    }
}
