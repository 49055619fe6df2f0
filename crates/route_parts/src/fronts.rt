//! What stands in front of bytes: numbers with the greatest byte first, and routes. Nothing here takes memory.

ghost use Rattle.std.specs.Prelude.{◌≡◌, ◌<◌, ◌^◌, option_map, IfSome};
ghost use Rattle.std.specs.Int.{w16, w32};
ghost use Rattle.world_defs.specs.Mapping.{number_front, byte_front, two_front};
ghost use Rattle.route_parts.specs.Reading.{bytes_front, numbers_front};

use crate::head::Head;

/// A number of four bytes.
fn long_front(bytes: &[u8]) -> Option<(u32, &[u8])>
    ensures value { option_map (λ p. (p.0, p.1.now)) result ≡ number_front w32 4 bytes.now }
    ensures fits { IfSome result (λ p. p.0 < 2 ^ 32) }
{
    match bytes.split_first_chunk::<4>() {
        Some((front, rest)) => Some((u32::from_be_bytes(*front), rest)),
        None => None,
    }
}

/// A number of two bytes.
pub(crate) fn short_front(bytes: &[u8]) -> Option<(u16, &[u8])>
    ensures value { option_map (λ p. (p.0, p.1.now)) result ≡ number_front w16 2 bytes.now }
    ensures fits { IfSome result (λ p. p.0 < 2 ^ 16) }
{
    match bytes.split_first_chunk::<2>() {
        Some((front, rest)) => Some((u16::from_be_bytes(*front), rest)),
        None => None,
    }
}

/// One byte.
pub(crate) fn byte_front(bytes: &[u8]) -> Option<(u8, &[u8])>
    ensures value { option_map (λ p. (p.0, p.1.now)) result ≡ byte_front bytes.now }
    ensures fits { IfSome result (λ p. p.0 < 256) }
{
    match bytes.split_first() {
        Some((front, rest)) => Some((*front, rest)),
        None => None,
    }
}

/// An epoch and a host.
pub(crate) fn two_front(bytes: &[u8]) -> Option<((u32, u16), &[u8])>
    ensures value { option_map (λ p. (p.0, p.1.now)) result ≡ two_front w32 4 bytes.now }
    ensures fits { IfSome result (λ p. (p.0.0 < 2 ^ 32) × (p.0.1 < 2 ^ 16)) }
{
    let (epoch, bytes) = long_front(bytes)?;
    let (host, bytes) = short_front(bytes)?;
    Some(((epoch, host), bytes))
}

// Two bytes.
fn bytes_front(bytes: &[u8]) -> Option<((u8, u8), &[u8])>
    ensures value { option_map (λ p. (p.0, p.1.now)) result ≡ bytes_front bytes.now }
{
    let (first, bytes) = byte_front(bytes)?;
    let (second, bytes) = byte_front(bytes)?;
    Some(((first, second), bytes))
}

/// The numbers of a part after its kind.
pub(crate) fn numbers_front(bytes: &[u8]) -> Option<(Head, &[u8])>
    ensures value { option_map (λ p. (p.0, p.1.now)) result ≡ numbers_front bytes.now }
    ensures fits { IfSome result (λ p. (p.0.epoch < 2 ^ 32) × (p.0.mapper < 2 ^ 16) × (p.0.dst < 2 ^ 16)) }
{
    let ((epoch, mapper), bytes) = two_front(bytes)?;
    let (dst, bytes) = short_front(bytes)?;
    let ((part, parts), bytes) = bytes_front(bytes)?;
    let head = Head {
        epoch,
        mapper,
        dst,
        part,
        parts,
    };
    Some((head, bytes))
}
