//! What the lines of a run show of messages: `specs/ReceivedLines.antt` has the statement.

ghost use Rattle.promise_laws.specs.ReceivedLines.{RunsReceiveAsSent};

/// The messages that the lines `received` of a run show are, for each receiver, port, sender and priority, the first of
/// those that the `send` lines with a token handed in: once each, in order, byte for byte.
pub fn lines_of_messages()
    ensures { RunsReceiveAsSent }
{}
