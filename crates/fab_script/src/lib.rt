//! The script of a text: its lines, read into commands over a fabric.
//!
//! It reads no fabric part, and runs no command. `specs/Script.antt` of `run_defs` is the grammar: the commands that
//! a script says, or its first fault. `specs/Parts.antt` says what the lines of a script say that a report follows.
//!
//! ```text
//!   script                   line 7 of its text: the fabric part ends
//!   map a 4 1                Map { host: 0, depth: 4, tries: 1 }
//!   plan flip 1 6 193        the second word counts with the first
//!   step advance s 5         the channel that leaves port 5 of s
//!   send a 0 b               BadWord: words are missing
//!   end                      Finish; only blank lines and comments follow, or a report that is judged
//! ```
//!
//! | module | has |
//! |---|---|
//! | `script` | all lines, up to `end`, and lines that a report follows |
//! | `command` | a line, by its first word |
//! | `walk_line` | `walk`, which alone takes memory |
//! | `map_lines` | `map`, `circuit`, `routes`, `install`, `settle` |
//! | `port_lines` | `open`, `close`, `poll`, `tokens`, `provide`, `send` |
//! | `cable_lines` | `pull`, `plug`, `revoke`, `broken` |
//! | `plan_lines`, `step_lines`, `duo_lines` | `plan`, `step` and `duo`, by their second word |
//! | `leading` | a keyword, or a name, with a space after it |
//! | `plain` | numbers with one space between, in one pass |
//! | `counted`, `values` | exactly so many words; what one word says |
#![tactic(auto)]

mod cable_lines;
mod command;
mod counted;
mod duo_lines;
mod leading;
mod map_lines;
mod plain;
mod plan_lines;
mod port_lines;
mod script;
mod step_lines;
mod values;
mod walk_line;

pub(crate) use command::read_command;
pub use run_defs::{Command, DuoEvent, PlanKind, StepLine};
pub use script::{Script, read_script, read_script_part};
