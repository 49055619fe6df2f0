//! The CRC by slices of sixteen bytes.

ghost use Rattle.std.specs.Prelude.{◌≡◌, ◌<◌, ◌≤◌, ◌-◌, length};
ghost use Rattle.std.specs.Int.Bits.{bit_xor};
ghost use Rattle.packet_defs.specs.Crc.{crc, contribution};

use crate::tables::{SLICE, near_contribution};

/// The CRC of bytes. The first slice may be a shorter one.
pub(crate) fn crc_by_slices(bytes: &[u8]) -> u8
    ensures { result ≡ crc bytes.now }
{
    let (front, slices) = bytes.as_rchunks::<SLICE>();
    let mut check = crc_by_quads(front);
    for slice in slices {
        check = crc_after(check, slice);
    }
    check
}

// The CRC of bytes, four at a time. The first may be fewer.
fn crc_by_quads(bytes: &[u8]) -> u8
    ensures { result ≡ crc bytes.now }
{
    let (front, quads) = bytes.as_rchunks::<4>();
    let mut check = crc_of_slice(front);
    for quad in quads {
        check = crc_after(check, quad);
    }
    check
}

// The CRC after a slice, from the CRC before it.
fn crc_after(check: u8, slice: &[u8]) -> u8
    requires some { 0 < length slice.now }
    requires few { length slice.now ≤ SLICE }
    ensures { result ≡ bit_xor (contribution check (length slice.now - 1)) (crc slice.now) }
{
    near_contribution(check, slice.len() - 1) ^ crc_of_slice(slice)
}

// The CRC of one slice: the sum of what each byte adds. No look into a table waits for the one before it.
fn crc_of_slice(slice: &[u8]) -> u8
    requires { length slice.now ≤ SLICE }
    ensures { result ≡ crc slice.now }
{
    let mut sum = 0;
    for (place, byte) in slice.iter().enumerate() {
        sum ^= near_contribution(*byte, slice.len() - 1 - place);
    }
    sum
}
