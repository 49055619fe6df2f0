//! The map of a journal, and whether a journal is closed.
//!
//! It asks nothing, and joins no nodes to classes: that is `replicate_merge`. `specs/Quotient.antt` of `map_defs`
//! says what the map of a journal is; the files of `specs/` here say what the parts of the code give each other.
//!
//! ```text
//!   journal of host a                    its map
//!                +1 +---+                               +1 +----+ 0
//!   a --- 0  s  ----| t |--- b       a --- 0  #0  ---------| #1 |--- b
//!                +2 +---+                               +2 +----+ +3  at +1
//! ```
//!
//! The walks `+1` and `+2` both find switch t. Its ports count from the port by which the lesser walk enters it.
//!
//! | module | has |
//! |---|---|
//! | `closing` | whether each class of switches has an expanded member |
//! | `found` | the nodes of the walks that found something |
//! | `order` | the order of their nodes |
//! | `numbering` | the vertex of each class |
//! | `naming` | a map's vertices, from the least nodes of the classes |
//! | `joining` | its cables, from the walks |
//! | `cables` | cables in the order of a report |
//! | `of_journal` | the map of a journal |
#![tactic(auto)]

mod cables;
mod closing;
mod found;
mod joining;
mod naming;
mod numbering;
mod of_journal;
mod order;

pub use cables::put_in_order;
pub use closing::closed;
pub use fabric_map::{FabricMap, MapCable, MapVertex};
pub use of_journal::{merged_quotient, quotient};
