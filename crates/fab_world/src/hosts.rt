//! A host that has nothing to do, and what is heard that gives it nothing to do.

ghost use Rattle.std.specs.Prelude.{◌≡◌, true};
ghost use Rattle.fab_world.specs.Resting.{IsSilent, leaves_host};

use client_host::{Arrival, ClientHost, Heard};

/// Whether a host has nothing staged and nothing to send.
pub(crate) fn is_silent(host: &ClientHost) -> bool
    ensures silent { result ≡ true → IsSilent host.now.host host.now.state }
    ensures speaks { IsSilent host.now.host host.now.state → result ≡ true }
{
    !host.has_staged() && !host.has_to_send()
}

/// Whether what was made of a packet leaves every host as it was: an answer to a probe or a part, or nothing that was
/// heard. What a host has to do by then is no more than before.
pub(crate) fn leaves_host(arrival: Arrival) -> bool
    ensures { result ≡ leaves_host arrival }
{
    match arrival {
        Arrival::Heard(Heard::Reply { .. } | Heard::Loop { .. } | Heard::RoutesAck { .. }) => true,
        Arrival::Heard(_) => false,
        Arrival::Dropped(_) | Arrival::NotMine => true,
    }
}
