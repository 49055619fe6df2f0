//! The numbers in front of a body, with the greatest byte first.

ghost use Rattle.std.specs.Prelude.{◌≡◌, ◌<◌, ◌^◌, ◌++◌, ◌∷◌, option_map, IfSome, OnOk};
ghost use Rattle.std.specs.Int.{w16, w64, to_be_bytes};
ghost use Rattle.world_defs.specs.Mapping.{number_front, two_front, whole};

use std::alloc::AllocError;

/// A packet's number and a host that are all of the bytes.
pub(crate) fn whole_numbers(bytes: &[u8]) -> Option<(u64, u16)>
    ensures { result ≡ whole (two_front w64 8 bytes.now) }
{
    match numbers_front(bytes) {
        Some((numbers, rest)) if rest.is_empty() => Some(numbers),
        _ => None,
    }
}

/// A packet's number and a host, and the bytes after them; none where there are fewer bytes.
pub(crate) fn numbers_front(bytes: &[u8]) -> Option<((u64, u16), &[u8])>
    ensures value { option_map (λ p. (p.0, p.1.now)) result ≡ two_front w64 8 bytes.now }
    ensures fits { IfSome result (λ p. (p.0.0 < 2 ^ 64) × (p.0.1 < 2 ^ 16)) }
{
    let (number, bytes) = number_front(bytes)?;
    let (host, bytes) = host_front(bytes)?;
    Some(((number, host), bytes))
}

// The number of a packet in front.
fn number_front(bytes: &[u8]) -> Option<(u64, &[u8])>
    ensures value { option_map (λ p. (p.0, p.1.now)) result ≡ number_front w64 8 bytes.now }
    ensures fits { IfSome result (λ p. p.0 < 2 ^ 64) }
{
    match bytes.split_first_chunk::<8>() {
        Some((front, rest)) => Some((u64::from_be_bytes(*front), rest)),
        None => None,
    }
}

// The address of a host in front.
fn host_front(bytes: &[u8]) -> Option<(u16, &[u8])>
    ensures value { option_map (λ p. (p.0, p.1.now)) result ≡ number_front w16 2 bytes.now }
    ensures fits { IfSome result (λ p. p.0 < 2 ^ 16) }
{
    match bytes.split_first_chunk::<2>() {
        Some((front, rest)) => Some((u16::from_be_bytes(*front), rest)),
        None => None,
    }
}

/// Puts a body's kind and numbers after other bytes.
pub(crate) fn append_numbers(
    bytes: &mut Vec<u8>,
    kind: u8,
    number: u64,
    host: u16,
) -> Result<(), AllocError>
    ensures { OnOk result (bytes.new.items
        ≡ bytes.old.items ++ (kind ∷ to_be_bytes w64 number ++ to_be_bytes w16 host)) }
{
    bytes.extend_from_slice(&numbers(kind, number, host))
}

/// A body's kind and numbers.
pub(crate) fn numbers(kind: u8, number: u64, host: u16) -> [u8; 11]
    ensures { result ≡ kind ∷ to_be_bytes w64 number ++ to_be_bytes w16 host }
{
    let [a, b, c, d, e, f, g, h] = number.to_be_bytes();
    let [high, low] = host.to_be_bytes();
    [kind, a, b, c, d, e, f, g, h, high, low]
}
