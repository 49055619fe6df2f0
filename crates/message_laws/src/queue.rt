//! The queues of ports: `specs/Unfinished.antt` has the statements.

ghost use Rattle.message_laws.specs.Unfinished.{QueueIsUnfinished, EachSendHasOneTicket};

/// A send token stands in its port's queue exactly while the last fragment of its message isn't acknowledged.
pub fn unfinished_sends()
    ensures queue { QueueIsUnfinished }
    ensures each { EachSendHasOneTicket }
{}
