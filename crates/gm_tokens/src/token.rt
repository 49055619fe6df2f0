//! The tokens of one opening of a port.

ghost use Rattle.std.specs.Prelude.{◌≡◌};

use std::marker::Model;

/// The right to one send from a port, until the message is acknowledged.
///
/// It must be spent, by [`crate::Bank::retire`], and it can't be cloned.
pub struct SendToken {
    pub(crate) host: u16,
    pub(crate) port: u8,
    pub(crate) number: u16,
}

impl Model for SendToken {
    ghost use Rattle.gm_tokens.specs.Token.{Token};

    ghost Value = { Token };

    ghost view = { λ t. record { host = t.host; port = t.port; number = t.number } };
}

impl SendToken {
    /// The token's number among the send tokens of its opening.
    pub fn number(&self) -> u16
        ensures { result ≡ self.now.number }
    {
        self.number
    }
}

/// The right to have a port receive one message into a buffer.
///
/// It must be spent, by [`crate::Bank::retire`], and it can't be cloned.
pub struct RecvToken {
    pub(crate) host: u16,
    pub(crate) port: u8,
    pub(crate) number: u16,
}

impl Model for RecvToken {
    ghost use Rattle.gm_tokens.specs.Token.{Token};

    ghost Value = { Token };

    ghost view = { λ t. record { host = t.host; port = t.port; number = t.number } };
}

impl RecvToken {
    /// The token's number among the receive tokens of its opening.
    pub fn number(&self) -> u16
        ensures { result ≡ self.now.number }
    {
        self.number
    }
}
