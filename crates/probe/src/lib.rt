//! Asks of a mapper: what answers them, the journal that keeps the answers, and the bodies of the packets that carry
//! them.
//!
//! It grows no map: that is `mapper`. An ask is answered by a `Prober`; here are two over a fabric in memory, and one
//! over a world of packets comes above. `specs/Drowning.antt` says what an ask may answer, `specs/Keeping.antt` what
//! a journal is, `specs/Body.antt` what bytes say.
//!
//! ```text
//!   host probe       1 | number (8) | mapper (2) | n | n route bytes of the way back
//!   host reply       2 | number (8) | host (2)
//!   loopback probe   3 | number (8) | mapper (2)
//! ```
//!
//! | module | has |
//! |---|---|
//! | `prober` | the trait |
//! | `fabric_prober`, `fake_prober` | a prober that tells the truth, and one whose chosen asks drown |
//! | `journal` | answers in order, found by their walks |
//! | `walk_index`, `flat_walks` | walks found by their turns, which lie one after the other in one block |
//! | `walk_list`, `chains` | walks wherever they lie, and their chains by hash |
//! | `body`, `fields`, `whole_route` | bodies as bytes |
#![tactic(auto)]

mod body;
mod chains;
mod fabric_prober;
mod fake_prober;
mod fields;
mod flat_walks;
mod journal;
mod laws;
mod prober;
mod walk_index;
mod walk_list;
mod whole_route;

pub use body::{BodyFault, ProbeBody, host_probe_front, loop_bytes};
pub use fabric_prober::FabricProber;
pub use fake_prober::FakeProber;
pub use journal::{Journal, JournalPush};
pub use journal_defs::Entry;
pub use laws::bodies_of_probes_are_read;
pub use net_defs::Answer;
pub use prober::Prober;
pub use walk_index::WalkIndex;
