//! Sets of routes cut into parts, tables made of parts, and the order in which a mapper installs them.
//!
//! It sends nothing and reads no bytes: bodies are in `route_parts`. `specs/Table.antt` of `world_defs` says what
//! parts and tables are, `specs/Installing.antt` what is awaited.
//!
//! ```text
//!   the set's routes from a host, by destination:   0 1 2 3 4 5 6 7 | 8 9 11
//!   its parts:                                          part 0      | part 1
//!   a host with part 1 alone has collected it; with part 0 too its table is active
//! ```
//!
//! | module | has |
//! |---|---|
//! | `between` | the walk of a set from one host to another |
//! | `cut` | parts of a set of routes |
//! | `collected` | parts by rising number |
//! | `finding` | where the entry for a host stands |
//! | `table` | a host's table |
//! | `installer` | which part is awaited next |
//! | `laws` | what comes of parts in any order |
#![tactic(auto)]

mod between;
mod collected;
mod cut;
mod finding;
mod installer;
mod laws;
mod table;

pub use between::walk_between;
pub use cut::{part_for, parts_of};
pub use installer::{Installer, Work};
pub use laws::{hosts_have_their_parts, parts_make_the_table};
pub use route_parts::{BodyFault, EntryList, PartAck, RoutePart, TableEntry};
pub use table::Table;
pub use world_defs::Applied;
