//! The table of route bytes: which byte stands for which turn. All other code reads it here.

ghost use Rattle.std.specs.Prelude.{◌≡◌};
ghost use Rattle.packet_defs.specs.RouteByte.{is_route_byte, route_byte, turn_of};

/// The route byte of a turn: 0x80 + (turn mod 64). With 128 more no turn is below 0, and its remainder is the same: the
/// last six bits.
pub fn route_byte(turn: i8) -> u8
    ensures { result ≡ route_byte turn }
{
    0x80 + (i16::from(turn) + 128) as u8 % 64
}

/// The turn of a route byte: 0x80 to 0x8F stand for 0 to 15, 0xB1 to 0xBF for -15 to -1. None of any other byte.
pub fn turn_of(byte: u8) -> Option<i8>
    ensures { result ≡ turn_of byte }
{
    match byte {
        0x80..=0x8f => Some((i16::from(byte) - 0x80) as i8),
        0xb1..=0xbf => Some((i16::from(byte) - 0xc0) as i8),
        _ => None,
    }
}

/// Whether a byte stands for a turn. Its last six bits are the turn modulo 64: with 15 more they are at most 30.
pub fn is_route_byte(byte: u8) -> bool
    ensures { result ≡ is_route_byte byte }
{
    byte / 64 == 2 && (byte + 15) % 64 <= 30
}
