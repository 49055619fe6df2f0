//! The text of a map, printed and read back; and where all that makes, renumbers and judges a map is reached.
//!
//! It makes no map of a journal: `quotient` and `closed` are those of `map_quotient`, `canon` that of
//! `map_renumber`. It prints no other line of a report. `map_form` of `line_table` has the rows of a map's lines, and
//! `specs/LineText.antt` of `run_defs` which of them a map has; `specs/Declaring.antt` and `specs/Reading.antt` here
//! say which texts are read, as which map, and what the first fault of others is.
//!
//! | module | has |
//! |---|---|
//! | `growing` | the map of the lines so far, its switches found by number |
//! | `declaring` | a line, and what it declares or its first fault |
//! | `reading` | a text up to its line `endmap`, and lines up to `endmap` |
//! | `printing` | the lines of a map |
//!
//! ```text
//!   host a                a -- 0 #0 +3 -- b      ports of #0 count from the one that a is at
//!   switch #0 core
//!   host b
//!   cable a 0 #0 0
//!   cable #0 +3 b 0
//!   endmap
//! ```
#![tactic(auto)]

mod declaring;
mod growing;
mod printing;
mod reading;

pub use fab_text::{FaultKind, TextFault};
pub use fabric_map::{FabricMap, MapCable, MapVertex};
pub use map_quotient::{closed, quotient};
pub use map_renumber::canon;
pub use printing::print_map;
pub use reading::{read_map, read_map_part};
