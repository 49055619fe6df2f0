//! Reached worlds, worked out: `specs/Examples.antt` has the statements.

ghost use Rattle.message_laws.specs.Examples.{MessageWorldIsReached, OneMessageCame};
ghost use Rattle.message_laws.specs.Examples.{AnsweredWorldIsReached, TakenAheadOfBase, AnswerIsHonest};
ghost use Rattle.message_laws.specs.Examples.{AllIsAcknowledged};
ghost use Rattle.message_laws.specs.Examples.{BusyWorldIsReached, SendIsUnfinished, SendIsFinished, BufferIsProvided};
ghost use Rattle.message_laws.specs.Examples.{CloseHandsBack, MessageIsReceived, BufferIsReturned};

/// A message comes: the laws are not of worlds alone in which nothing is got.
pub fn one_message()
    ensures reached { MessageWorldIsReached }
    ensures came { OneMessageCame }
{}

/// A message comes and is acknowledged: the laws are not of worlds alone in which nothing is sent.
pub fn one_acknowledgement()
    ensures reached { AnsweredWorldIsReached }
    ensures ahead { TakenAheadOfBase }
    ensures answer { AnswerIsHonest }
    ensures all { AllIsAcknowledged }
{}

/// A send stands in its port's queue until its message is acknowledged.
pub fn one_send()
    ensures reached { BusyWorldIsReached }
    ensures unfinished { SendIsUnfinished }
    ensures finished { SendIsFinished }
{}

/// A buffer is provided, and a close hands it back with its token.
pub fn one_buffer()
    ensures provided { BufferIsProvided }
    ensures closed { CloseHandsBack }
{}

/// A message of one byte is received in a buffer of eight, and comes back to its sender.
pub fn one_event()
    ensures received { MessageIsReceived }
    ensures returned { BufferIsReturned }
{}
