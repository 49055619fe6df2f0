//! What holds of two hosts that restart, after every list of events from two new ends: what each incarnation gets is a
//! prefix of what it was sent, each token has one owner, and a client that is told that its message came is told the
//! truth. What polls handed out and what waits is what was got, message by message.
//!
//! It holds no host: the statements are in `specs/Theorem.antt` of `duo_defs` and in `specs/Polled.antt`, and the hosts
//! in `gm_restart`. `specs/Examples.antt` works out what is polled before and after a restart.
//!
//! ```text
//!   sent(0, 1, 1)   m0 m1 m2          what end 0, as incarnation 1, accepted for incarnation 1 of end 1
//!   got(0, 1, 1)    m0 m1             what that incarnation of end 1 has of it: a prefix
//!   sent(0, 1, 2)   m3                end 1 restarted; m2 was reported unsure, and m3 is for incarnation 2
//! ```
//!
//! ```text
//!   end 1 as incarnation 1, over      got     m0 m1            polled m0, then the restart took m1 unread
//!   end 1 as incarnation 2, present   got     m3 m4 m5         polled m3, and m4 m5 wait
//! ```
#![tactic(auto)]

mod polled;
mod worked;

ghost use Rattle.duo_defs.specs.Theorem.{GotIsPrefixOfSent, TokensHaveOneOwner, PollsAreRight, ListsOnlyGrow};
ghost use Rattle.duo_defs.specs.Theorem.{MediumIsReadable, SendsAreWaiting};

pub use polled::polled_messages;
pub use worked::polls_and_a_restart;

/// What an incarnation has of an incarnation of the other end is a prefix of what that one sent it.
pub fn messages_in_order()
    ensures { GotIsPrefixOfSent }
{}

/// Each token of the living incarnations has one owner.
pub fn tokens_have_one_owner()
    ensures { TokensHaveOneOwner }
{}

/// A poll answers sent only for a message that the peer has got, and unsure only where the peer restarted.
pub fn polls_are_right()
    ensures { PollsAreRight }
{}

/// The kept lists only grow, at their ends.
pub fn lists_only_grow()
    ensures { ListsOnlyGrow }
{}

/// Each body in the medium is read as a frame of a whole message, or as an acknowledgement.
pub fn medium_is_readable()
    ensures { MediumIsReadable }
{}

/// The sends that wait are those of the messages that aren't acknowledged, in order, and stand in their port's queue.
pub fn sends_are_waiting()
    ensures { SendsAreWaiting }
{}
