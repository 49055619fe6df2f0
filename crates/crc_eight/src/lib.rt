//! The CRC of a packet's bytes, from tables, and what a byte in front adds to it.
//!
//! It knows no packet. `specs/Crc.antt` of `packet_defs` says what a CRC and a contribution are, and `specs/Bits.antt`
//! there the polynomial.
//!
//! ```text
//!   front | block | block | block     x^127 leaves 1, so a block of 127 bytes counts alike wherever it stands:
//!                                     the bytes have the CRC of the sum of all blocks
//!
//!   front | slice | slice | slice     CRC after a slice of sixteen bytes, and in front of those, of four
//!                                         = what the CRC before it adds + what each of its bytes adds
//! ```
#![tactic(auto)]

ghost use Rattle.std.specs.Prelude.{◌≡◌, ◌<◌, ◌%◌};
ghost use Rattle.packet_defs.specs.Crc.{crc, contribution};

mod folding;
mod slices;
mod tables;

use folding::folded;
use slices::crc_by_slices;
use tables::{SLICE, behind_slices, near_contribution};

// The powers of x repeat after so many, and so do those of x^8.
const PERIOD: usize = 127;

// From so many bytes on it takes less time to fold them first.
const LONG: usize = 160;

/// The CRC of bytes: polynomial x^8 + x^2 + x + 1, start value 0, most significant bit first, no reflection, no final
/// exclusive or.
pub fn crc(bytes: &[u8]) -> u8
    ensures { result ≡ crc bytes.now }
{
    if bytes.len() < LONG {
        crc_by_slices(bytes)
    } else {
        crc_by_slices(&folded(bytes))
    }
}

/// What a byte adds to the CRC of so many bytes that follow it: the CRC of the byte followed by so many zero bytes. It
/// takes two looks into tables, for any number of them.
pub fn contribution(byte: u8, places: usize) -> u8
    ensures { result ≡ contribution byte places }
{
    far_contribution(byte, round(places))
}

// As many places, but for whole periods.
fn round(places: usize) -> usize
    ensures { result ≡ places % PERIOD }
{
    if places < PERIOD {
        places
    } else {
        places % PERIOD
    }
}

// What a byte adds: what is left of it after whole slices of zero bytes takes its place.
fn far_contribution(byte: u8, places: usize) -> u8
    requires { places < PERIOD }
    ensures { result ≡ contribution byte places }
{
    near_contribution(behind_slices(byte, places / SLICE), places % SLICE)
}
