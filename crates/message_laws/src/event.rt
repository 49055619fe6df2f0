//! The events of ports: `specs/Received.antt` has the statement. Of which message a sent event is says `client_laws`.

ghost use Rattle.message_laws.specs.Received.{ReceivedEventsAreOfMessages};

/// A received event holds the bytes of a message that was got, and after them what was provided.
pub fn received_messages()
    ensures messages { ReceivedEventsAreOfMessages }
{}
