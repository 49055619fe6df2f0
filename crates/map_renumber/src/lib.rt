//! A map renumbered by least walks from vertex 0: its canonical form.
//!
//! Two maps of one network differ by their vertices' numbers and by the port from which each switch counts.
//! Renumbered they are equal, if vertex 0 of both is the same host. `specs/Canon.antt` says what a renumbered map is;
//! the other files of `specs/` say what the parts of the code give each other.
//!
//! ```text
//!   a map                                     renumbered
//!        +4 +----+ +2                               0 +----+ -2
//!   a ------| #1 |------ b                    a ------| #0 |------ b
//!           |    | +5  -1 +----+                      |    | +1   0 +----+
//!           |    |--------| #0 |                      |    |--------| #1 |
//!           +----+        +----+                      +----+        +----+
//! ```
//!
//! The walk from host a enters the switch in the middle by its port +4: from there its ports count now.
//!
//! | module | has |
//! |---|---|
//! | `search` | the vertices by their least walks, with the ports by which these enter |
//! | `naming` | a map's vertices in another order |
//! | `renumbering` | the map renumbered |
//! | `laws` | that maps of one network are one when renumbered |
#![tactic(auto)]

mod laws;
mod naming;
mod renumbering;
mod search;

pub use fabric_map::{FabricMap, MapCable, MapVertex};
pub use laws::renumbered_maps_are_one;
pub use renumbering::canon;
