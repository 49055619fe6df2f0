//! What holds of messages after every list of acts that may happen: on each connection, which is from one host to
//! another and of one priority, and in the ports at both of its ends.
//!
//! It holds no connection and no port: that is `gm_conn` and `gm_port`. It leaves out that each token has one owner,
//! which is `owner_laws`, when sends, tickets and messages of one host are matched, which is `ticket_laws`, and what
//! clients saw of all this, and with which message a send token comes back, which is `client_laws`. Read
//! `specs/Order.antt` first.
//!
//! | file of `specs/` | says |
//! |---|---|
//! | `Order` | what was got is a prefix of what was sent |
//! | `Growing` | what was sent and got only grows, after what was there |
//! | `Says` | what a frame on its way says |
//! | `Windows` | the window of each connection, and the packets on their way |
//! | `Got` | how much of what was sent is got |
//! | `Filling` | what came of a message that isn't whole stands in the one buffer that is filling with it |
//! | `Unfinished` | a port's queue has exactly the sends that aren't finished |
//! | `Untouched` | provided buffers are as they were provided |
//! | `Received` | what received events hold |
//! | `Examples` | reached worlds: a message and its acknowledgement come; a send isn't finished; a buffer is provided |
#![tactic(auto)]

mod buffer;
mod event;
mod filling;
mod got;
mod order;
mod queue;
mod window;
mod worked;

pub use buffer::untouched_buffers;
pub use event::received_messages;
pub use filling::what_is_coming;
pub use got::{acknowledged_messages, messages_below_taken};
pub use order::{
    frames_on_their_way, messages_in_order, messages_of_a_priority, messages_only_grow,
};
pub use queue::unfinished_sends;
pub use window::{honest_packets, windows_hold};
pub use worked::{one_acknowledgement, one_buffer, one_event, one_message, one_send};
