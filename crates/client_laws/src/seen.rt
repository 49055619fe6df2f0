//! What clients saw: `specs/Seen.antt` has the statements.

ghost use Rattle.client_laws.specs.Seen.{PolledThenWaitingIsGot, SeenIsOfConnections, AcceptedIsSent};
ghost use Rattle.client_laws.specs.Seen.{PolledIsFrontOfAccepted};

/// What was polled and what waits at a port is what was got for it; what sends were accepted with is what was sent; so
/// what was polled is the first of what was accepted.
pub fn seen_messages()
    ensures got { PolledThenWaitingIsGot }
    ensures only { SeenIsOfConnections }
    ensures sent { AcceptedIsSent }
    ensures front { PolledIsFrontOfAccepted }
{}
