//! The text of each line of a report, and of a summary of it.
//!
//! It prints lines and runs nothing. `specs/LineText.antt` of `run_defs` says what each line's text is; the lines of
//! a map are printed elsewhere, with the map.
//!
//! ```text
//! Line::Client { call: Poll, host: b, port: 1, said: Received { .. } }
//!     poll b 1 received token 0 from a 0 prio 0 len 3 bytes 414243
//! ```
//!
//! | module | has |
//! |---|---|
//! | `line` | the call, and the lines of a few words |
//! | `mapping` | the lines of maps and ranks, and of how many routes there are |
//! | `route` | the line of a route |
//! | `circuit` | the lines of a map of circuit links |
//! | `cables` | the lines of cables that are pulled and plugged, and of broken routes |
//! | `client` | what a client's call was answered |
//! | `step` | what one event did |
//! | `duo` | what one event of the two hosts that restart did |
//! | `places` | where tokens are |
//! | `generated` | the lines that a generated run alone has |
//! | `printed` | what a command printed: a text, and its figure for a summary |
//! | `summary` | the summary of a run |
//! | `words` | the words of turns, vertices and bytes |
//! | `room` | bytes put into room at the end of a text |
#![tactic(auto)]

mod cables;
mod circuit;
mod client;
mod duo;
mod generated;
mod line;
mod mapping;
mod places;
mod printed;
mod room;
mod route;
mod step;
mod summary;
mod words;

pub use line::{print_line, print_line_onto, print_route_onto};
pub use printed::Printed;
pub use run_defs::{
    ClientCall, Figure, InstallCause, Line, MapWords, PlaceEntry, PlaceList, PlugWords, StepWords,
};
pub use summary::{begin_summary, end_summary};
