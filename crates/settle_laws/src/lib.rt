//! What a settle ends with: a settled world, in which whatever isn't acknowledged waits for a token, or for a route of
//! its sender or its receiver to the other.
//!
//! It says nothing of how long a settle takes, apart from the rounds that `world_laws` bounds, and nothing of a
//! settle in which the count of injections reaches its last value. Read `specs/Settles.antt` first.
//!
//! | file of `specs/` | says |
//! |---|---|
//! | `Premises` | what a world must be for a settle to end settled |
//! | `Settles` | that it does |
//! | `Examples` | a settle after a lost frame, and one in which a message waits for a token |
//!
//! Why the last round leaves nothing to do, of the first fragment that isn't acknowledged:
//!
//! ```text
//!   expiry       sent again, from this fragment on
//!     |
//!   injected --> its frame on its way --> heard: taken, and an acknowledgement owed --> injected --> on its way --> heard: the base rises
//!                                           |
//!                                           +--> next to take, and no token fits: it waits
//! ```
//!
//! In a round in which no planned fault strikes each step that stands there comes in one of its passes, and the
//! passes end only where no host has anything to send. So where no base rose in the round, what isn't acknowledged
//! waits.
#![tactic(auto)]

mod settled;
mod worked;

pub use settled::settled_settles;
pub use worked::{no_token_waits, one_lost_frame};
