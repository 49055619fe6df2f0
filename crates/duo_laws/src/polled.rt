//! What polls hand out: `specs/Polled.antt` has the statement.

ghost use Rattle.duo_laws.specs.Polled.{PolledThenWaitingIsGot};

/// What polls handed to an incarnation's client, then what its restart took unread or what waits still, is what this
/// incarnation got, in order and byte for byte.
pub fn polled_messages()
    ensures { PolledThenWaitingIsGot }
{}
