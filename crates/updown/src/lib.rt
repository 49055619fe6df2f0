//! The orientation of a map: which channels go up to the root, and which go down (up*/down* routing).
//!
//! It makes no route. `specs/Orientation.antt` of `map_defs` says what a level, a place and an up channel are.
//!
//! | module | has |
//! |---|---|
//! | `levels` | the distance of each vertex from the root |
//! | `places` | the place of each vertex, by level, then by number |
//! | `orientation` | the orientation |
//!
//! ```text
//!   level 0      #0            A channel is up where the place falls from its tail to its head.
//!              /    \          The places of #0, #1, #2 are 0, 1, 2: from #2 to #1 is up, from #1 to #2 is down.
//!   level 1  #1 ---- #2
//! ```
#![tactic(auto)]

mod levels;
mod orientation;
mod places;

pub use orientation::{Orientation, orient};
