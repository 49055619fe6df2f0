//! What the lines `duo received` of a run show: `specs/DuoPolls.antt` has the statement, and `specs/DuoExamples.antt`
//! an example.

ghost use Rattle.promise_laws.specs.DuoPolls.{DuoLinesShowWhatIsGot};
ghost use Rattle.promise_laws.specs.DuoExamples.{DuoMessageIsInLines};

/// The messages that the lines `duo received` of a run show of a host's incarnation, then those that its restart took
/// unread or that wait still, are exactly what this incarnation got: once each, in order, byte for byte.
pub fn duo_lines_of_messages()
    ensures { DuoLinesShowWhatIsGot }
{}

/// A line `duo received` shows the message that its host got, as the incarnation which polled it.
pub fn duo_message_in_lines()
    ensures { DuoMessageIsInLines }
{}
