//! Two hosts that restart, and a medium that loses, repeats, delays and reorders what they send: what they are, and
//! what one event does.
//!
//! It holds no host, no packet of a fabric and no proof: what holds after every list of events is proved in `duo_laws`.
//! Read `specs/Step.antt` for the events, and `specs/Theorem.antt` for what holds.
//!
//! | file of `specs/` | says |
//! |---|---|
//! | `Duo` | an end, its periods, the two ends with their medium, and the lists of messages that they keep |
//! | `Emitting` | what an end emits |
//! | `Hearing` | what an end makes of a packet |
//! | `Step` | one event, and events in order |
//! | `Theorem` | what holds after every list of events |
//! | `Examples` | a message that is acknowledged, a restart that is heard of, and the last incarnation, worked out |
//!
//! An end goes through *periods*, in each of which it is one incarnation and knows one incarnation of its peer, or
//! none. The two numbers only rise, so no pair of them comes twice, and each period has a connection of its own:
//!
//! ```text
//!   end 0    (1, knows none)   (1, knows 1)  |  (1, knows 2)
//!                                  |  frames of (1, 1) are stale from here on
//!   end 1    (1, knows none)   (1, knows 1)  |  restarts: (2, knows none)   (2, knows 1)
//! ```
#![tactic(auto)]

mod effect;
mod event;
mod examples;
mod packet;

pub use effect::{DuoCause, DuoEffect};
pub use event::DuoEvent;
pub use examples::{acknowledged_message, last_incarnation_stays, restart_before_the_frame};
pub use packet::Packet;
