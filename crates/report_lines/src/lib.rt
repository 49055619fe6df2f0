//! One line of a report, read by its words: what it says, as far as anything of it is judged.
//!
//! It judges nothing: a line that says what can't be is read like any other. `specs/Lines.antt` says what words say:
//! the meaning of the first row of the table of lines that they have, of the rows that begin with their first word;
//! `specs/Meaning.antt` which these are, and what their values mean; `specs/Reading.antt` what the parts of the code
//! read.
//!
//! ```text
//!   map a complete asks 31 packets 60      Map { host: 0, said: Complete }     how many asks isn't judged
//!   route a b +1 -2                        Route(..)
//!   step arrived b probe                   Step                                what an event did isn't judged
//!   walk switch s port 9                   none where s has no port 9
//!   poll b 1 sent token 70000              Returned { port: b 1, token: 70000 } whether b has it isn't asked here
//!   poll b 9 nothing                       none: a host has no port 9
//! ```
//!
//! | module | has |
//! |---|---|
//! | `line` | what a line says |
//! | `reading`, `by_word` | a line by its first word: a call, or another word |
//! | `maps` | lines of maps, circuits, ranks and installations |
//! | `route_line` | the line of a route |
//! | `cables` | lines of cables, and of routes that they break |
//! | `calls` | lines of client calls |
//! | `polls` | lines of `poll` and `tokens` |
//! | `places` | where tokens are |
//! | `forms` | lines of which only the form is judged, as lists of slots |
//! | `form`, `slot` | whether words have such a form, and what it is made of |
//! | `word`, `bytes` | single words: hosts, ends, numbers, vertices of a map; the bytes of a message |
#![tactic(auto)]

mod by_word;
mod bytes;
mod cables;
mod calls;
mod form;
mod forms;
mod line;
mod maps;
mod places;
mod polls;
mod reading;
mod route_line;
mod slot;
mod word;

pub use line::{MapSaid, PlacesSaid, ReceivedLine, ReportLine, TokensLine};
pub use reading::read_line;
pub use slot::{Slot, WordKind};
pub use word::host;
