//! Offsets between the ports of nodes that are one switch, and tables of far ends of ports.
//!
//! It keeps no classes: that is `replicate_merge`. `specs/Offset.antt` says what each call means, `specs/Laws.antt`
//! that offsets are a group, and `specs/Ends.antt` what a table has at a place.
//!
//! ```text
//!   class      .. 5   6   7   8   9 ..
//!   node u        0   1   2   3   4      offset +5
//!   node v    0   1   2   3   4   5      offset +4: port p of u is port p + 1 of v
//! ```
//!
//! A table keeps far ends by the number of a node or vertex: 31 places each, one for each port from -15 to 15. What a
//! number stands for is the owner's. Of most numbers one end alone is known, so a row of 31 places is made only where a
//! second one comes.
//!
//! ```text
//!   number     0           1           2             3
//!   known      nothing     one, at 15  row 1         row 0
//!                                      |             |
//!   rows       . . x .. x . (31)  ..  <+  row 0  <---+
//! ```
#![tactic(auto)]

mod end;
mod frame;
mod laws;
mod offset;
mod rows;
mod table;

pub use end::NodePort;
pub use frame::{ClassFrame, aligned};
pub use laws::{frames_are_aligned, offsets_are_a_group};
pub use offset::{compose, inverse};
pub use table::PortTable;
