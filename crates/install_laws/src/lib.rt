//! Why an installation counts fewer hosts than it has, what the counted ones have, and what it leaves as it was.
//!
//! It installs nothing; what the line of an installation says in a run is `run_laws`. Read `specs/Cause.antt` first.
//!
//! | file of `specs/` | says |
//! |---|---|
//! | `Premises` | what an installation is made over |
//! | `Cause` | that each host that isn't counted has a part each of whose tries met a planned fault or ended cut off |
//! | `Counts` | how many hosts are counted, and when all are |
//! | `Tables` | that each counted host has an active table |
//! | `Kept` | what an installation leaves as it was, and that the same set can be installed again where no cable went |
//! | `Examples` | installations in which a part or its acknowledgement is lost, or a cable is pulled |
#![tactic(auto)]

mod cause;
mod kept;
mod worked;

pub use cause::{counted_hosts, counted_tables, missed_hosts};
pub use kept::kept_by_installations;
pub use worked::lost_packets;
