//! Sizes of buffers, and the limit of a message.

ghost use Rattle.std.specs.Prelude.{◌≡◌};
ghost use Rattle.gm_defs.specs.Token.{size_for_length as least_size, fits as token_fits};
ghost use Rattle.gm_defs.specs.Port.{is_too_long};

/// The most bytes of a message.
pub const MESSAGE_LIMIT: u32 = 65_528;

/// Whether a message of this length has more bytes than a message may.
pub fn is_too_long(len: u32) -> bool
    ensures { result ≡ is_too_long len }
{
    len > MESSAGE_LIMIT
}

/// The least size of a buffer that has room for a message of this length: a buffer of size `s` has room for `2^s - 8`
/// bytes, and sizes are 4 to 16. None exactly above 65,528 bytes.
pub fn size_for_length(len: u32) -> Option<u8>
    ensures { result ≡ least_size len }
{
    match len {
        0..=8 => Some(4),
        9..=24 => Some(5),
        25..=56 => Some(6),
        57..=120 => Some(7),
        121..=248 => Some(8),
        249..=504 => Some(9),
        505..=1_016 => Some(10),
        1_017..=2_040 => Some(11),
        2_041..=4_088 => Some(12),
        4_089..=8_184 => Some(13),
        8_185..=16_376 => Some(14),
        16_377..=32_760 => Some(15),
        32_761..=65_528 => Some(16),
        _ => None,
    }
}

/// Whether a token that was provided with this size and priority takes a message: its size is the least that has room
/// for the message, and its priority is the message's.
pub fn fits(size: u8, prio: u8, len: u32, mprio: u8) -> bool
    ensures { result ≡ token_fits size prio len mprio }
{
    match size_for_length(len) {
        Some(least) => size == least && prio == mprio,
        None => false,
    }
}
