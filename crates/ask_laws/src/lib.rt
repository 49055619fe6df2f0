//! What a mapper's ask comes to, over every world of a fabric whose links are idle.
//!
//! It asks nothing: the asks of a program are in `world_asking`. Read `specs/Truth.antt` first, with
//! `specs/Premises.antt`.
//!
//! | file of `specs/` | says |
//! |---|---|
//! | `Premises` | what an ask is made over |
//! | `Row` | that an ask is events in a row, with few injections, and leaves idle links |
//! | `Kept` | what an ask leaves as it was |
//! | `Truth` | that an ask answers the truth or drowns, and when it doesn't drown |
//! | `Examples` | an ask whose first probe is lost |
#![tactic(auto)]

mod row;
mod truth;
mod worked;

pub use row::{kept_by_asks, rows_of_asks};
pub use truth::{drowned_asks, true_asks};
pub use worked::lost_probe;
