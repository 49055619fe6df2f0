//! The laws of runs: a mapping is one and a run is one; runs join and split; a run is acts that may happen; and what
//! the lines of its installations and settles say is true.
//!
//! It runs nothing. Read `specs/Runs.antt` first, and `specs/Acts.antt` for the acts of a run, by which it leaves no
//! cycle of installed routes.
//!
//! | file of `specs/` | says |
//! |---|---|
//! | `Laws` | a mapping is one |
//! | `Runs` | routes of a map are one list, what a command does is one, so is a run; its first commands print a prefix |
//! | `Acts` | a run is acts which may happen, one after another, so that the laws of acts hold along every run |
//! | `TwoHosts` | every mapping of the two hosts says complete, and every map that such a run prints is right |
//! | `InstallLines` | how many hosts an installation counts, and why each other one isn't counted |
//! | `SettleLines` | the rounds of a settle, its resets, and what isn't acknowledged then |
//!
//! That a world is settled in which the count of injections has reached its last value isn't said.
#![tactic(auto)]

mod acts;
mod install_lines;
mod laws;
mod routes;
mod settle_lines;
mod worked;

pub use acts::acts_of_runs;
pub use install_lines::{installed_lines, short_routes};
pub use laws::{one_mapping, one_run, runs_in_a_row};
pub use routes::adoptable_routes;
pub use settle_lines::{settled_lines, settling_runs};
pub use worked::mapping_of_the_two_hosts;
