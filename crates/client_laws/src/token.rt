//! Of which message a send token is: `specs/Noted.antt` has the statements.

ghost use Rattle.client_laws.specs.Noted.{SentEventsAreOfTokens, PolledTokensAreOfMessages};

/// A send token comes back with the message that it was last sent with, once that is acknowledged.
pub fn returned_tokens()
    ensures events { SentEventsAreOfTokens }
    ensures polls { PolledTokensAreOfMessages }
{}
