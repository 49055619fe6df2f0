//! The messages of a connection: `specs/Order.antt` and `specs/Growing.antt` have the statements.

ghost use Rattle.message_laws.specs.Order.{GotIsFrontOfSent, TakenHasCome, SentIsOfPriority, FramesAreHonest};
ghost use Rattle.message_laws.specs.Growing.{MessagesOnlyGrow};

/// On each connection, so between two hosts for each priority, no message comes twice or out of order, and none is
/// left out before one that came.
pub fn messages_in_order()
    ensures front { GotIsFrontOfSent }
    ensures taken { TakenHasCome }
{}

/// A message is sent on the connection of its priority.
pub fn messages_of_a_priority()
    ensures sent { SentIsOfPriority }
{}

/// A frame on its way is the fragment of its number, or no host reads it.
pub fn frames_on_their_way()
    ensures frames { FramesAreHonest }
{}

/// What was sent and what was got on a connection only grow, each by one message an act at most, after the others.
pub fn messages_only_grow()
    ensures { MessagesOnlyGrow }
{}
