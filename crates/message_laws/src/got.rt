//! How much of what was sent is got: `specs/Got.antt` has the statements.

ghost use Rattle.message_laws.specs.Got.{GotIsWholeBelowTaken, AllAcknowledgedIsAllGot, NoneUnacknowledgedIsAllGot};
ghost use Rattle.message_laws.specs.Got.{SettleGetsAll};

/// What is got is the messages that lie wholly below the number of fragments that were taken.
pub fn messages_below_taken()
    ensures got { GotIsWholeBelowTaken }
{}

/// Where all is acknowledged, all is got: of one connection, of all at once, and so after a settle.
pub fn acknowledged_messages()
    ensures connection { AllAcknowledgedIsAllGot }
    ensures all { NoneUnacknowledgedIsAllGot }
    ensures settled { SettleGetsAll }
{}
