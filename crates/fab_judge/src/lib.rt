//! A judge of reports: whether a report shows what every report must, or its first line that doesn't.
//!
//! It runs nothing and knows no world: a report is held against its own text and against its own earlier lines,
//! whoever wrote it. `specs/Text.antt` of `judge_defs` says when a report is judged yes, and which line of another is
//! the first that fails; `answer_defs` says what is right of an answer, `specs/Ledgers.antt` what a line leaves in the
//! ledgers, and `specs/Checks.antt` what is found of routes.
//!
//! ```text
//!   fabric and script up to `end`      judge yes
//!   the lines of a report         ->   judge no 21 map     line 21 of the whole input is a map that isn't right
//!
//!   send a 0 token 0                       accepted: client a 0 held token 0, and the message waits on its lane
//!   poll b 1 received token 0 from a 0 ..  the first message that waits on the lane, and b 1 provided token 0
//! ```
//!
//! | module | has |
//! |---|---|
//! | `judging` | `judge`, command by command |
//! | `verdict`, `stop` | the verdict, and why a reading ends early |
//! | `reader` | the report's lines as they come, with their numbers |
//! | `answer` | the answer of a command, and how it is read |
//! | `block`, `tables`, `routes`, `ranks`, `broken` | its lines after the first |
//! | `shown`, `past` | the last map, and what else the answers so far say |
//! | `faults` | what is judged of an answer |
//! | `ledgers` | the messages that wait and the tokens that are held |
//! | `calls` | the judgement of a line by the ledgers |
//! | `whole`, `hosts` | whether each two hosts of a map have a route; the hosts of a map by address |
//! | `route_checks` | where routes with their ranks fail first |
#![tactic(auto)]

mod answer;
mod block;
mod broken;
mod calls;
mod faults;
mod hosts;
mod judging;
mod ledgers;
mod past;
mod ranks;
mod reader;
mod route_checks;
mod routes;
mod shown;
mod stop;
mod tables;
mod verdict;
mod whole;

pub(crate) use calls::judge_line;
pub(crate) use hosts::{Hosts, hosts_in};
pub use judge_defs::Why;
pub use judging::judge;
pub(crate) use ledgers::Ledgers;
pub(crate) use route_checks::routes_fault;
pub use verdict::Verdict;
