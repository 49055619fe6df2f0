//! Tokens on their way, worked out: `specs/Examples.antt` has the statements.

ghost use Rattle.owner_laws.specs.Examples.{PortHasTokens, ClientHasTheOther, NoSuchPortOpens};

/// A port that was provided with a buffer, and that sends a message, has two tokens of three.
pub fn tokens_of_a_busy_port()
    ensures port { PortHasTokens }
    ensures client { ClientHasTheOther }
{}

/// Opening a port that isn't there changes nothing.
pub fn no_such_port()
    ensures opens_none { NoSuchPortOpens }
{}
