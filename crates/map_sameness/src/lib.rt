//! Whether a map is right: the same as the mapper's part of a fabric, the ports of each switch counted from elsewhere.
//!
//! It makes no map, and asks no network. `map_defs`' `specs/Sameness.antt` says what sameness is.
//!
//! ```text
//!   map      a --0 #0 +3-- b       #0 stands for the switch s, port p of it for port p + 2:
//!   fabric   a --2  s  5-- b       so b's cable must end at port 5 there
//! ```
//!
//! | module | has |
//! |---|---|
//! | `comparing` | the comparison, from the mapper's host on |
//! | `pairing` | for each vertex of the map the one that it stands for, with its offset |
#![tactic(auto)]

mod comparing;
mod pairing;

pub use comparing::is_same_as_part;
