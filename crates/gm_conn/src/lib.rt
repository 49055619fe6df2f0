//! The connections of a host: the two halves of one, a sender that repeats what isn't acknowledged and a receiver that
//! takes the next number alone; and a host's lanes, one for each of its peers and each priority.
//!
//! It makes no packet, and knows no route and no port: the host's node asks which peer is owed an acknowledgement, or
//! has a frame due, looks for the way there, and hands over what came. `specs/Connection.antt` of `gm_defs` has the
//! rules of the numbers, `specs/Halves.antt` what a half is, and `specs/Pair.antt` two halves over a medium that loses,
//! repeats and delays. What a contract sees of one lane is `specs/Lane.antt`, over the state of a lane in `world_defs`,
//! whose `specs/Lane.antt` says what each call makes of it; `specs/Lanes.antt` is the same for all lanes by their
//! numbers. Sets of lanes say which one is next, and no lane is looked at for it: `specs/Sets.antt` says what is in
//! them.
//!
//! ```text
//!   0              base         cursor        top          next
//!   | acknowledged  | on its way  | due again  | never sent  |
//!                   '--- at most 8 ---'
//!
//!   Lanes -- by the lane's number, 2 * peer + priority --> Lane:
//!
//!   accept ---> sent     [ finished | on their way | not yet sent ]
//!                                   '- a ticket each: pending ----'
//!   on_frame -> coming   [ the first bytes of the next ]
//!            -> got      [ taken whole, in order ]
//! ```
//!
//! | module | has |
//! |---|---|
//! | `sender`, `receiver`, `ring`, `desc` | the two halves, and the messages that wait at a sender |
//! | `pair`, `event` | two halves and what is on its way between them, for tests of other layers |
//! | `lanes`, `lane`, `used_lane`, `message_list`, `sets`, `number` | all lanes of a host, one lane with its messages, and which is next |
//! | `envelope`, `ticket`, `due` | a message and whom it is for; what is known of it until it is acknowledged; a frame that is due |
//! | `laws`, `examples` | laws of a pair and worked examples |
#![tactic(auto)]

mod desc;
mod due;
mod envelope;
mod event;
mod examples;
mod lane;
mod lanes;
mod laws;
mod message_list;
mod number;
mod pair;
mod receiver;
mod refusal;
mod ring;
mod sender;
mod sets;
mod ticket;
mod used_lane;

pub use desc::{Desc, Due};
pub use due::DueFrame;
pub use envelope::Envelope;
pub use event::{PairEvent, PairMsg};
pub use examples::{events_of_a_pair, message_of_two_fragments, messages_of_a_sender};
pub use gm_defs::{Ack, Blob, ConnectionKey, FrameHead, GmBody, Message, Took};
pub use lane::Lane;
pub use lanes::Lanes;
pub use laws::{due_is_of_message, pair_in_order};
pub use pair::Pair;
pub use receiver::Receiver;
pub use refusal::OfferRefusal;
pub use sender::Sender;
pub use ticket::Ticket;
