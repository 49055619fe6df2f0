//! Rank certificates: numbers of channels that rise along every route, which rule out a deadlock.
//!
//! It makes no route. `specs/Ranks.antt` of `map_defs` says what a certificate is and which ranks a map's orientation
//! gives; `specs/Checking.antt` here says which fault is the first.
//!
//! | module | has |
//! |---|---|
//! | `ranks` | a list of ranks, and the rank of a channel |
//! | `crossings` | the channels that have ranks, by their ports' places |
//! | `rising` | routes along which ranks rise |
//! | `certifying` | the ranks of all channels of a map |
//! | `following` | where a route leads, and the channels that it crosses |
//! | `checking` | the check of routes against ranks |
//!
//! ```text
//!   route -1 +2     c --- 8 ---> d --- 10 ---> e       8 < 10: what waits for d never waits, by whatever chain, for c.
//! ```
#![tactic(auto)]

mod certifying;
mod checking;
mod crossings;
mod fault;
mod following;
mod ranks;
mod rising;

pub use certifying::certify;
pub use checking::{check, leads};
pub use fault::CheckFault;
pub use map_defs::RankEntry;
pub use ranks::Ranks;
