//! A send that isn't finished.

ghost use Rattle.std.specs.Prelude.{◌≡◌, ◌<◌, ◌^◌};

use std::marker::Model;

/// Which send of which port: contracts see the ticket of `world_defs`.
#[derive(Debug, Drop)]
pub struct Ticket {
    port: u8,
    token: u16,
}

impl Model for Ticket {
    ghost use Rattle.world_defs.specs.Lane.{Ticket as SendOf};

    ghost Value = { SendOf };

    ghost view = { λ t. record { port = t.port; token = t.token } };
}

impl Ticket {
    // The ticket of a token of a port.
    pub(crate) fn new(port: u8, token: usize) -> Ticket
        requires { token < 2 ^ 16 }
        ensures { result ≡ record { port = port; token = token } }
    {
        Ticket {
            port,
            token: token as u16,
        }
    }

    /// The sending port.
    pub fn port(&self) -> u8
        ensures { result ≡ self.now.port }
    {
        self.port
    }

    /// The number of the send token.
    pub fn token(&self) -> u16
        ensures { result ≡ self.now.token }
    {
        self.token
    }
}
