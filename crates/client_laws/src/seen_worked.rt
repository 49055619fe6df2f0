//! A worked example: `specs/Examples.antt` has the statement.

ghost use Rattle.client_laws.specs.SeenExamples.{MessageIsPolled};

/// A message waits, is polled, and is what was sent: the laws are not of ports alone whose clients see nothing.
pub fn one_poll()
    ensures { MessageIsPolled }
{}
