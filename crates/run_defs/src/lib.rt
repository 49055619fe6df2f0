//! What each command of a script does to the world, which lines it prints, and what a run of commands promises.
//!
//! This crate holds definitions, the types of commands and lines, and worked examples. It runs nothing.
//!
//! | file of `specs/` | says |
//! |---|---|
//! | `Script` | the command that each line of a script says, or its first fault |
//! | `Session` | what a run holds from command to command |
//! | `Duos` | the two hosts that restart, as a run holds them |
//! | `Outcome` | what a command does and prints, where that is determined |
//! | `Mapped` | what `map` does: the asks of a journal that grows, its map, and how far it is known to be right |
//! | `Circuit` | what the command `circuit` prints: the map of a whole tree of circuit answers |
//! | `Run` | what commands in order do |
//! | `LineRows` | the row of each line in the table of `line_table`, and its values |
//! | `LineText` | the text of each line and of a map |
//! | `Headline` | the promise of a run |
//! | `Summary` | the figures of a report, and the lines that show them |
#![tactic(auto)]

mod command;
mod examples;
mod figure;
mod line;

pub use command::{Command, PlanKind, StepLine};
pub use duo_defs::{DuoCause, DuoEffect, DuoEvent};
pub use examples::{
    closing_a_port, lines_of_scripts, map_of_the_two_hosts, promise_of_no_command, quiet_fabrics,
    refusals, report_of_a_pulled_cable, report_of_a_restart, report_of_cables_without_routes,
    report_of_single_events, summary_of_a_run, text_of_a_map, texts_of_lines, whole_scripts,
};
pub use figure::Figure;
pub use line::{
    ClientCall, InstallCause, Line, MapWords, PlaceEntry, PlaceList, PlugWords, StepWords,
};
