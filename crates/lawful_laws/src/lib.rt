//! What hosts send on adopted routes is lawful, and lawful traffic is never stuck, after every list of acts that may
//! happen.
//!
//! It moves no packet, and of probes it says only that they are told apart. Read `specs/Lawful.antt` first, and
//! `specs/Stuck.antt`.
//!
//! | file of `specs/` | says |
//! |---|---|
//! | `Probes` | what the packet of a probe or of a reply is |
//! | `Former` | packets that needn't be lawful: of probes, and of the epochs before |
//! | `Lawful` | which packets are lawful, in every reached world |
//! | `Stuck` | lawful traffic isn't stuck, and runs out in a drain |
//! | `Resets` | when a settle resets a channel |
//! | `Examples` | a lawful frame, stuck probes, a probe that no host reads, and where clears begin |
#![tactic(auto)]

mod flow;
mod packet;
mod probe;
mod resets;
mod worked;

pub use flow::lawful_traffic;
pub use packet::{lawful_limbo, lawful_packets};
pub use probe::packets_of_probes;
pub use resets::resets_of_unlawful_traffic;
pub use worked::{clears_among_events, one_frame, strange_probe, two_probes};
