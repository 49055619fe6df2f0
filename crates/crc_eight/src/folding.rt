//! Many bytes folded to one block that has their CRC.

ghost use Rattle.std.specs.Prelude.{◌≡◌, ◌+◌, ◌≤◌, ◌++◌, length, take};
ghost use Rattle.packet_defs.specs.Crc.{crc, xor_bytes};

use crate::PERIOD;

/// The sum of the blocks of bytes. The first block may be a shorter one: zeros stand in front of it.
pub(crate) fn folded(bytes: &[u8]) -> [u8; PERIOD]
    ensures { crc result ≡ crc bytes.now }
{
    let (front, blocks) = bytes.as_rchunks::<PERIOD>();
    let mut sum = filled_up(front);
    for block in blocks {
        add(&mut sum, block);
    }
    sum
}

// A block of bytes with zeros in front of them.
fn filled_up(bytes: &[u8]) -> [u8; PERIOD]
    requires { length bytes.now ≤ PERIOD }
    ensures { crc result ≡ crc bytes.now }
{
    let mut block = [0; PERIOD];
    put_last(&mut block, PERIOD - bytes.len(), bytes);
    block
}

// Writes bytes over the end of a block, from a place on.
fn put_last(block: &mut [u8], place: usize, bytes: &[u8])
    requires { place + length bytes.now ≡ length block.old }
    ensures { block.new ≡ take place block.old ++ bytes.now }
{
    block[place..].copy_from_slice(bytes);
}

// Adds to each byte of a sum the one at its place in a block.
fn add(sum: &mut [u8; PERIOD], block: &[u8; PERIOD])
    ensures added { sum.new ≡ xor_bytes sum.old block.now }
    ensures whole { (length sum.old ≡ PERIOD) × (length block.now ≡ PERIOD) }
{
    for (place, byte) in block.iter().enumerate() {
        sum[place] ^= *byte;
    }
}
