//! What ties the sends in a host's queues, the tickets on its lanes and the messages that aren't finished, and keeps
//! them tied whatever the host does.
//!
//! It holds no host, and speaks of one alone: that it holds in each world that is reached is `message_laws`. Read
//! `specs/Tickets.antt` first.
//!
//! ```text
//!   lane    sent     [ finished | m m m ]          as many, in the same order,
//!           pending             [ t t t ]          and each ticket's port and token
//!   port    queue    { token: buffer }  <-'        have a buffer with its message's bytes
//! ```
//!
//! | file of `specs/` | says |
//! |---|---|
//! | `Tickets` | when sends, tickets and messages are matched |
//! | `Host` | the sends, tickets and messages of a host, when it is ticketed, and when it is backed |
//! | `Laws` | it stays so, and what is due stands in the buffer of its ticket's send |
#![tactic(auto)]

ghost use Rattle.ticket_laws.specs.Laws.{NewIsTicketed, HeardStaysTicketed, DueIsInBuffer};
ghost use Rattle.ticket_laws.specs.Laws.{ForgottenIsBacked, HeardStaysBacked, BackedIsInBuffer};

/// A host is ticketed from the first, stays so when it hears of messages, and what is due stands in a buffer. One whose
/// lanes forget what they sent is backed, whatever its queues hold; it stays so, and what is due then stands in a
/// buffer.
pub fn tickets_stay()
    ensures new { NewIsTicketed }
    ensures heard { HeardStaysTicketed }
    ensures due { DueIsInBuffer }
    ensures forgotten { ForgottenIsBacked }
    ensures heard_backed { HeardStaysBacked }
    ensures due_backed { BackedIsInBuffer }
{}
