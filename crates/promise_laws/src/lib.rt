//! The promise of a run, for every fabric and all commands, and of every script that is read without a fault.
//!
//! It runs nothing, and proves nothing of single hosts anew: it joins the laws of tables, order, owners, mappings and
//! runs. Read `specs/CommandActs.antt` first.
//!
//! | file of `specs/` | says |
//! |---|---|
//! | `CableLines` | what lines `pull`, `plug`, `revoked` say: which cables came and went, who gave up an epoch |
//! | `CommandActs` | that the acts of a command's deed may happen, each one action; where those of a run lead |
//! | `CutShort` | that a command is cut short, and a map that was begun |
//! | `Duos` | what a command depends on, of the two hosts that restart, and what they come to in a run |
//! | `DuoPolls`, `DuoExamples` | what lines `duo received` show, against what each incarnation got; an example |
//! | `OneAction` | whose an act is, and that it is one action, of one host, of one channel or of one cable |
//! | `Existence` | each command is one deed after every run, and so there is a run |
//! | `ReceivedLines` | what lines `received` show, against `send` lines with a token: once, in order, byte for byte |
//! | `Moments` | what holds of every reached world: tables, packets, windows, queues and buffers too |
//! | `Promised` | every moment is sound, and every run keeps its promise |
//! | `Scripts` | what every script promises that is read without a fault |
//! | `Examples` | whose acts of a message's way are, and how epochs follow |
#![tactic(auto)]

mod cable_lines;
mod command_acts;
mod duo_lines;
mod duo_polls;
mod existence;
mod promises;
mod received_lines;
mod scripts;
mod worked;

pub use cable_lines::{plug_lines, pull_lines, revoke_lines};
pub use command_acts::{
    acts_of_all_commands, acts_of_commands, acts_of_cut_commands, acts_of_one_actor,
};
pub use duo_lines::{dependence_on_the_duo, duos_of_runs};
pub use duo_polls::{duo_lines_of_messages, duo_message_in_lines};
pub use existence::runs_exist;
pub use promises::{promises_of_runs, right_worlds, sound_moments};
pub use received_lines::lines_of_messages;
pub use scripts::{acts_of_scripts, maps_of_scripts};
pub use worked::{actors_of_acts, epochs_that_follow, message_in_lines};
