//! The numbers of a message: whom it goes to, how long it is, and what its bytes are made from.

ghost use Rattle.std.specs.Prelude.{◌≡◌, ◌≤◌, ◌<◌};
ghost use Rattle.fabric_gen.specs.Text.{peer as peer_of, message_length as length_of, message_seed as seed_of};

/// The host that message `m` of host `i` goes to.
pub(crate) fn peer(n: u8, seed: u32, i: u8, m: u8) -> u8
    requires some { 2 ≤ n }
    requires few { n ≤ 24 }
    requires seed { seed ≤ 1000000 }
    requires host { i < n }
    requires number { m < 4 }
    ensures { result ≡ peer_of n seed i m }
{
    let hosts = u32::from(n);
    let step = (seed + u32::from(m)) % (hosts - 1);
    ((u32::from(i) + 1 + step) % hosts) as u8
}

/// The bytes of message `m` of host `i`: at most 1,016.
pub(crate) fn message_length(seed: u32, i: u8, m: u8) -> u32
    requires seed { seed ≤ 1000000 }
    ensures { result ≡ length_of seed i m }
{
    (seed + 7 * u32::from(i) + u32::from(m)) % 1017
}

/// What the bytes of message `m` of host `i` are made from.
pub(crate) fn message_seed(seed: u32, i: u8, m: u8) -> u32
    requires seed { seed ≤ 1000000 }
    ensures { result ≡ seed_of seed i m }
{
    (seed + u32::from(i) + u32::from(m)) % 256
}
